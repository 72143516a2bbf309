//! The plain program.
use call_types::act::Act;
use call_types::bounded::{Name, Payload};
use call_types::call::Call;
use call_types::errno::Errno;
use call_types::flags::OpenFlags;
use call_types::limits::Limits;
use call_types::outcome::{Outcome, Reply};
use call_types::span::Span;
use plain_world::history::empty_world;
use plain_world::step::{StepFault, plain_step, step_in_place};
use posix_model::world::World;
use std::alloc::Global;
use std::test::Fail;

fn number(outcome: &Outcome) -> Option<u64> {
    match outcome {
        Outcome::Reply(Reply::Number(number)) => Some(*number),
        _ => None,
    }
}

fn error(outcome: &Outcome) -> Option<Errno> {
    match outcome {
        Outcome::Reply(Reply::Error(error)) => Some(*error),
        _ => None,
    }
}

fn data(outcome: &Outcome) -> Option<&[u8]> {
    match outcome {
        Outcome::Reply(Reply::Data(content)) => match content.span() {
            Span::Slice(bytes) => Some(bytes),
            Span::Same { .. } => None,
        },
        _ => None,
    }
}

/// What the next act of process 0 comes to; none where the rules record nothing, or memory is wanting.
fn next(alloc: Global, world: &mut World, act: Act) -> Option<Outcome> {
    let limits = Limits::new(10, 1024).unwrap();
    step_in_place(alloc, limits, world, 0, &act).ok()
}

/// What the next call of process 0 comes to.
fn call(alloc: Global, world: &mut World, call: Call) -> Option<Outcome> {
    next(alloc, world, Act::Call(call))
}

/// Whether process 0 may open file `a` with these flags, and gets this descriptor.
fn opens(alloc: Global, world: &mut World, flags: OpenFlags, fd: u64) -> bool {
    match Name::copied(alloc, b"a") {
        Ok(name) => match call(alloc, world, Call::Open { name, flags }) {
            Some(opened) => number(&opened) == Some(fd),
            None => false,
        },
        Err(_) => false,
    }
}

/// Whether a write of six bytes through descriptor 0 moves all of them.
fn writes(alloc: Global, world: &mut World) -> bool {
    match Payload::copied(alloc, b"hello!") {
        Ok(bytes) => match call(alloc, world, Call::Write { fd: 0, bytes }) {
            Some(wrote) => number(&wrote) == Some(6),
            None => false,
        },
        Err(_) => false,
    }
}

/// Whether a read through descriptor 0 is refused, and one through descriptor 1 gives the six bytes.
fn reads(alloc: Global, world: &mut World) -> bool {
    let refused = match call(alloc, world, Call::Read { fd: 0, count: 5 }) {
        Some(refused) => error(&refused) == Some(Errno::EBADF),
        None => false,
    };
    let read = match call(alloc, world, Call::Read { fd: 1, count: 10 }) {
        Some(read) => data(&read) == Some(b"hello!".as_slice()),
        None => false,
    };
    refused && read
}

/// Whether descriptor 0 may be closed.
fn closes(alloc: Global, world: &mut World) -> bool {
    matches!(
        call(alloc, world, Call::Close { fd: 0 }),
        Some(Outcome::Reply(Reply::Done))
    )
}

/// Whether process 0 may join.
fn joins(alloc: Global, world: &mut World) -> bool {
    match next(alloc, world, Act::Join) {
        Some(joined) => number(&joined) == Some(0),
        None => false,
    }
}

#[test]
fn plain_program_runs(rt: HostRuntime) {
    let alloc = rt.alloc();
    let mut world = empty_world(alloc);
    assert!(rt; !closes(alloc, &mut world));
    assert!(rt; joins(alloc, &mut world));
    assert!(rt; opens(alloc, &mut world, OpenFlags::WRITE | OpenFlags::CREAT, 0));
    assert!(rt; writes(alloc, &mut world));
    assert!(rt; opens(alloc, &mut world, OpenFlags::READ, 1));
    assert!(rt; reads(alloc, &mut world));
    assert!(rt; closes(alloc, &mut world));
    assert_eq!(rt; world.descriptions.live(), 1);
}

/// Whether a join makes process 0 in a copy of a world, and not in that world; nor twice.
fn joins_a_copy(alloc: Global, limits: Limits, world: &World) -> bool {
    match plain_step(alloc, limits, world, 0, &Act::Join) {
        Ok((joined, outcome)) => {
            let late = plain_step(alloc, limits, &joined, 0, &Act::Join);
            number(&outcome) == Some(0)
                && joined.processes.live() == 1
                && world.processes.len() == 0
                && matches!(late, Err(StepFault::NotReady))
        }
        Err(_) => false,
    }
}

#[test]
fn copy_is_stepped(rt: HostRuntime) -> Result<(), Fail> {
    let alloc = rt.alloc();
    let limits = Limits::new(10, 1024)?;
    let world = empty_world(alloc);
    assert!(rt; joins_a_copy(alloc, limits, &world));
    Ok(())
}
