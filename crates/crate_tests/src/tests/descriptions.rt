//! The table of open file descriptions: held, dropped and moved.
use bitflags::Flags;
use call_types::description::{Description, DescriptionEdit, Mode, Target};
use call_types::flags::OpenFlags;
use description_table::{DescriptionTable, Dropped};
use slots::ticket::Ticket;
use std::test::Fail;

/// A description of file 3, for reading and appending, with its offset at byte 5.
fn reader_and_appender() -> Description {
    Description {
        target: Target::Regular { file: 3 },
        offset: 5,
        mode: Mode::ReadWrite,
        append: true,
        nonblock: false,
    }
}

/// A description of file 4, for reading, with its offset at byte 1.
fn reader() -> Description {
    Description {
        target: Target::Regular { file: 4 },
        offset: 1,
        mode: Mode::Read,
        append: false,
        nonblock: false,
    }
}

#[test]
fn description_goes_with_its_last_reference(rt: HostRuntime) -> Result<(), Fail> {
    let mut table = DescriptionTable::new(rt.alloc());
    table.reserve()?;
    let ticket = table.add(reader_and_appender());
    table.hold(&ticket);
    assert!(rt; matches!(table.drop_one(&ticket), Dropped::Still));
    assert_eq!(rt; table.live(), 1);
    assert!(rt;
        matches!(
            table.drop_one(&ticket),
            Dropped::Gone {
                target: Target::Regular { file: 3 },
                mode: Mode::ReadWrite,
            }
        )
    );
    assert_eq!(rt; (table.live(), table.next()), (0, 1));
    assert!(rt; table.get(&ticket).is_none());
    Ok(())
}

#[test]
fn offset_and_flags_are_told_while_it_lives(rt: HostRuntime) -> Result<(), Fail> {
    let mut table = DescriptionTable::new(rt.alloc());
    table.reserve()?;
    let ticket = table.add(reader_and_appender());
    let misled = Ticket::new(ticket.number(), 7);
    assert_eq!(rt;
        (table.offset(&ticket), table.offset(&misled)),
        (Some(5), Some(5))
    );
    table.describe(&misled, DescriptionEdit::Offset { offset: 9 });
    assert_eq!(rt;
        table.flags(&ticket),
        Some(
            OpenFlags::READ
                .union(OpenFlags::WRITE)
                .union(OpenFlags::APPEND)
        )
    );
    assert_eq!(rt;
        (table.offset(&ticket), table.offset(&Ticket::new(1, 0))),
        (Some(9), None)
    );
    Ok(())
}

#[test]
fn ticket_with_the_key_of_another_finds_its_own(rt: HostRuntime) -> Result<(), Fail> {
    let mut table = DescriptionTable::new(rt.alloc());
    table.reserve_two()?;
    let first = table.add(reader_and_appender());
    let second = table.add(reader());
    let misled = Ticket::new(first.number(), second.key());
    table.describe(&misled, DescriptionEdit::Offset { offset: 9 });
    table.hold(&misled);
    assert_eq!(rt;
        (table.offset(&first), table.offset(&second)),
        (Some(9), Some(1))
    );
    assert_eq!(rt;
        (table.references(&first), table.references(&second)),
        (2, 1)
    );
    assert!(rt; matches!(table.drop_one(&misled), Dropped::Still));
    assert_eq!(rt;
        (table.references(&misled), table.references(&second)),
        (1, 1)
    );
    Ok(())
}

#[test]
fn key_is_given_again_and_its_old_ticket_finds_nothing(rt: HostRuntime) -> Result<(), Fail> {
    let mut table = DescriptionTable::new(rt.alloc());
    table.reserve()?;
    let old = table.add(reader_and_appender());
    assert!(rt; matches!(table.drop_one(&old), Dropped::Gone { .. }));
    table.reserve()?;
    let new = table.add(reader());
    assert_eq!(rt; (new.number(), new.key()), (1, old.key()));
    assert!(rt; table.get(&old).is_none());
    assert_eq!(rt; table.offset(&new), Some(1));
    Ok(())
}
