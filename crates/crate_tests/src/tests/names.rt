//! The table of names: found and taken away by their bytes.
use call_types::bounded::Name;
use name_table::NameTable;
use std::alloc::Global;
use std::test::Fail;

/// Adds a new name of a few bytes.
fn added(alloc: Global, names: &mut NameTable, name: &[u8], file: usize) -> Result<(), Fail> {
    if name.len() > 64 || names.find(name).is_some() {
        return Err("a new name of a few bytes")?;
    }
    let name = Name::copied(alloc, name)?;
    names.reserve()?;
    names.add(name, file);
    Ok(())
}

#[test]
fn name_is_found_until_it_is_removed(rt: HostRuntime) -> Result<(), Fail> {
    let mut names = NameTable::new(rt.alloc());
    added(rt.alloc(), &mut names, b"a", 3)?;
    assert_eq!(rt; names.find(b"a"), Some(3));
    assert_eq!(rt; names.remove(b"a"), Some(3));
    assert_eq!(rt; names.len(), 0);
    assert_eq!(rt; names.find(b"a"), None);
    Ok(())
}

#[test]
fn names_stand_in_the_order_of_their_bytes(rt: HostRuntime) -> Result<(), Fail> {
    let mut names = NameTable::new(rt.alloc());
    added(rt.alloc(), &mut names, b"b", 1)?;
    added(rt.alloc(), &mut names, b"ab", 1)?;
    added(rt.alloc(), &mut names, b"B", 2)?;
    let first = |names: &NameTable| names.entries().first().map(|entry| entry.1);
    assert_eq!(rt; first(&names), Some(2));
    assert_eq!(rt; names.remove(b"B"), Some(2));
    assert_eq!(rt; first(&names), Some(1));
    assert_eq!(rt;
        (names.find(b"ab"), names.find(b"b"), names.len()),
        (Some(1), Some(1), 2)
    );
    assert_eq!(rt; names.remove(b"a"), None);
    Ok(())
}
