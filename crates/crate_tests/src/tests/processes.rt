//! The table of processes, with the descriptors of each.
ghost use Rattle.std.specs.Prelude.{◌≡◌, Some};
ghost use Rattle.slots.specs.Slots.{slot};

use process_table::process::Process;
use process_table::processes::ProcessTable;
use process_table::table::DescriptorTable;
use slots::ticket::Ticket;
use std::alloc::{AllocError, Global};
use std::process::Abort;
use std::test::Fail;

/// The number of what a descriptor refers to.
fn number_of(entry: Option<&Ticket>) -> Option<usize> {
    match entry {
        Some(ticket) => Some(ticket.number()),
        None => None,
    }
}

/// A process that is live.
fn process<'a>(rt: &impl Abort, processes: &'a ProcessTable, number: usize) -> &'a Process
    ensures { slot processes.now.0 number ≡ Some result.now }
{
    processes.get(number).expect(rt, "the process is live")
}

/// Looks at the first process while descriptor 0 is given.
fn gives_the_lowest(rt: &impl Abort, processes: &mut ProcessTable) {
    assert_eq!(rt; process(rt, processes, 0).table.lowest_free(), Some(0));
    assert!(rt; processes.set_fd(0, 0, Some(Ticket::new(7, 0))).is_none());
    assert_eq!(rt;
        process(rt, processes, 0).table.two_lowest_free(),
        Some((1, 2))
    );
}

/// Looks at a copy of its descriptors, and clears the one that is open.
fn is_a_copy(rt: &impl Abort, copy: &mut DescriptorTable) {
    assert_eq!(rt; number_of(copy.get(0)), Some(7));
    assert_eq!(rt; (copy.next_open(0), copy.next_open(1)), (Some(0), None));
    let cleared = copy.clear(0);
    assert_eq!(rt; number_of(cleared.as_ref()), Some(7));
    assert_eq!(rt; copy.lowest_free(), Some(0));
}

/// Looks at what the process itself has after that.
fn keeps_its_own(rt: &impl Abort, processes: &ProcessTable) {
    assert_eq!(rt; number_of(processes.descriptor(0, 0)), Some(7));
    assert_eq!(rt; process(rt, processes, 0).table.lowest_free(), Some(1));
    assert_eq!(rt; processes.next_open(0, 0), Some(0));
}

/// Adds a process that has all its descriptors free.
fn add_process(
    alloc: Global,
    processes: &mut ProcessTable,
    attached: bool,
) -> Result<(), AllocError> {
    let table = DescriptorTable::free(alloc)?;
    processes.reserve()?;
    processes.add(Process::new(table, attached));
    Ok(())
}

/// Opens a descriptor of the first process, and clears it in a copy.
fn opened_and_copied(
    rt: &impl Abort,
    alloc: Global,
    processes: &mut ProcessTable,
) -> Result<(), Fail> {
    add_process(alloc, processes, true)?;
    gives_the_lowest(rt, processes);
    let mut copy = process(rt, processes, 0).table.clone()?;
    is_a_copy(rt, &mut copy);
    keeps_its_own(rt, processes);
    Ok(())
}

#[test]
fn lowest_descriptors_are_free_first_and_are_copied(rt: HostRuntime) -> Result<(), Fail> {
    let alloc = rt.alloc();
    let mut processes = ProcessTable::new(alloc);
    opened_and_copied(&rt, alloc, &mut processes)
}

/// So many processes come and go, each with all its descriptors free.
fn come_and_go(
    alloc: Global,
    processes: &mut ProcessTable,
    count: usize,
) -> Result<(), AllocError> {
    for _process in 0..count {
        let number = processes.next();
        add_process(alloc, processes, true)?;
        processes.remove(number);
    }
    Ok(())
}

/// Adds the first process, and then one whose number is looked for at the same place.
fn add_two_at_one_place(alloc: Global, processes: &mut ProcessTable) -> Result<(), Fail> {
    add_process(alloc, processes, true)?;
    come_and_go(alloc, processes, 1_023)?;
    add_process(alloc, processes, false)?;
    Ok(())
}

/// Looks at these two.
fn are_apart(rt: &impl Abort, processes: &ProcessTable) {
    assert_eq!(rt; (processes.live(), processes.next()), (2, 1_025));
    assert!(rt; process(rt, processes, 0).attached);
    assert!(rt; !process(rt, processes, 1_024).attached);
    assert!(rt; processes.get(1).is_none() && processes.get(2_048).is_none());
}

#[test]
fn processes_that_are_looked_for_at_one_place_are_apart(rt: HostRuntime) -> Result<(), Fail> {
    let alloc = rt.alloc();
    let mut processes = ProcessTable::new(alloc);
    let added = add_two_at_one_place(alloc, &mut processes);
    if added.is_ok() {
        are_apart(&rt, &processes);
    }
    added
}
