//! The tallies of a run, by their shares.

ghost use Rattle.std.specs.Prelude.{◌≡◌};

use byte_ledger::gather::Missing;
use byte_ledger::ledgers::{Blanks, Ledgers};
use byte_ledger::tallies::{Shares, Sums, Tallies};
use std::alloc::{AllocError, Global};
use std::marker::Brand;
use std::test::Fail;

/// Tallies of which two shares were opened, 3 bytes in counted through the first and 4 through the second.
fn three_and_four<L: Ledgers>(blanks: Blanks) -> (Tallies<L>, Shares<L>, Shares<L>)
    requires { blanks ≡ L.names }
{
    let mut tallies = Tallies::<L>::new(blanks);
    let mut first = tallies.open_shares();
    let mut second = tallies.open_shares();
    tallies.count(&mut first, 3, 0);
    tallies.count(&mut second, 4, 0);
    (tallies, first, second)
}

/// What these tallies have of both shares, or of the first alone.
fn gathered<L: Ledgers>(
    alloc: Global,
    blanks: Blanks,
    both: bool,
) -> Result<Result<Sums, Missing>, AllocError>
    requires { blanks ≡ L.names }
{
    let mut shares = Vec::with_capacity(alloc, 2)?;
    let (tallies, first, second) = three_and_four::<L>(blanks);
    if both {
        shares.push_reserved(second);
    }
    shares.push_reserved(first);
    Ok(tallies.gather(shares))
}

#[test]
fn two_shares_have_the_sum(rt: HostRuntime) -> Result<(), Fail> {
    let sums = Sums {
        records: 2,
        bytes_in: 7,
        bytes_out: 0,
    };
    assert!(rt; gathered::<Brand>(rt.alloc(), Blanks::new(), true)? == Ok(sums));
    Ok(())
}

#[test]
fn one_share_of_two_is_missed(rt: HostRuntime) -> Result<(), Fail> {
    let missing = Missing { held: 1, opened: 2 };
    assert!(rt; gathered::<Brand>(rt.alloc(), Blanks::new(), false)? == Err(missing));
    Ok(())
}
