//! The history of a run, as two threads that never meet know it.

ghost use Rattle.std.specs.Prelude.{◌≡◌};

use call_types::act::{Act, Record};
use call_types::outcome::{Outcome, Reply};
use run_history::front::{Begun, Front, History, OfHistory};
use std::marker::Brand;
use std::test::Fail;

/// Adds an exit of this process where nothing was added after what the front has, and says whether it did. It adds a few at the most.
fn add_exit<H: OfHistory>(front: &mut Front<H>, history: &History<H>, actor: u32) -> bool {
    if front.len() >= 3 {
        return false;
    }
    let exit = Record {
        actor,
        act: Act::Exit,
        outcome: Outcome::Reply(Reply::Done),
    };
    front.add(history, &exit)
}

/// What two fronts of one history came to: how many records each has, whether the first has all of the second in the end, and the second
/// all of the first before that, and who has added all that it was to add.
#[derive(Clone, Copy, Debug, PartialEq, Eq)]
struct Fronts {
    first: u64,
    second: u64,
    first_covers: bool,
    second_covers: bool,
    added: (bool, bool),
}

/// Two fronts of a history to which the first adds two records, and then the second, which has not seen them, tries to add one.
fn added_to<H: OfHistory>(begun: Begun) -> Fronts
    requires { begun.seen.book ≡ H.book }
{
    let (history, mut first) = begun.named::<H>();
    let mut second = first.again();
    let both = add_exit(&mut first, &history, 0) && add_exit(&mut first, &history, 1);
    let behind = second.covers(&first);
    let third = add_exit(&mut second, &history, 2);
    Fronts {
        first: first.len(),
        second: second.len(),
        first_covers: first.covers(&second),
        second_covers: behind,
        added: (both, third),
    }
}

#[test]
fn front_that_is_behind_learns_and_adds_nothing(_rt: HostRuntime) -> Result<(), Fail> {
    let fronts = Fronts {
        first: 2,
        second: 2,
        first_covers: true,
        second_covers: false,
        added: (true, false),
    };
    assert!(_rt; added_to::<Brand>(Begun::new()) == fronts);
    Ok(())
}
