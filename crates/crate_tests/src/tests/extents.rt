//! The bytes of a file: what writes over one another leave, both sides of the end of a chunk, and positions far out.

ghost use Rattle.std.specs.Prelude.{◌≤◌, ◌<◌, ◌^◌};

use call_types::span::Span;
use file_extents::extents::Extents;
use std::alloc::{AllocError, Global};
use std::process::Abort;
use std::test::Fail;

/// Writes bytes, after their room was made.
fn write(file: &mut Extents, start: usize, new: &[u8; 4]) -> Result<(), AllocError>
    requires { start < 2 ^ 62 }
{
    file.reserve_for(start, 4)?;
    file.write_at(start, Span::Slice(new));
    Ok(())
}

/// What a new file has from two bytes before a write of four.
fn read_round(alloc: Global, start: usize) -> Result<(usize, Vec<u8>), AllocError>
    requires after_two { 2 ≤ start }
    requires fits { start < 2 ^ 62 }
{
    let mut file = Extents::new(alloc);
    write(&mut file, start, b"wxyz")?;
    Ok((file.len(), file.read_at(start - 2, 65_536)?))
}

/// Writes three times over one another.
fn write_over(file: &mut Extents) -> Result<(), AllocError> {
    write(file, 4, b"wxyz")?;
    file.reserve_for(0, 2)?;
    file.write_at(0, Span::Slice(b"ab"));
    write(file, 1, b"1234")
}

/// Whether the bytes from a place on, of which so many are asked for, are these.
fn reads(file: &Extents, start: usize, count: usize, bytes: &[u8]) -> Result<bool, AllocError>
    requires { count ≤ 65536 }
{
    let read = file.read_at(start, count)?;
    Ok(read.as_slice() == bytes)
}

/// Looks at what that left.
fn is_written_over(rt: &impl Abort, file: &Extents) -> Result<(), AllocError> {
    assert_eq!(rt; file.len(), 8);
    assert!(rt; reads(file, 0, 99, b"a1234xyz")?);
    assert!(rt; file.stored(5, 2) == Some(b"xy".as_slice()));
    Ok(())
}

/// Cuts the file to three bytes, and gives it another length twice.
fn is_cut_and_extended(rt: &impl Abort, file: &mut Extents) -> Result<(), AllocError> {
    file.set_len(3);
    file.set_len(5);
    assert!(rt; reads(file, 0, 99, b"a12\0\0")?);
    assert!(rt; reads(file, 5, 1, b"")?);
    file.set_len(1_048_576);
    assert_eq!(rt; file.len(), 1_048_576);
    assert!(rt; reads(file, 1_048_575, 9, b"\0")?);
    Ok(())
}

/// Writes over one another, then other lengths. No `?` where the file is owned, since each would drop it once more.
fn written_and_cut(rt: &impl Abort, file: &mut Extents) -> Result<(), Fail> {
    write_over(file)?;
    is_written_over(rt, file)?;
    is_cut_and_extended(rt, file)?;
    Ok(())
}

#[test]
fn writes_over_one_another_leave_the_last(rt: HostRuntime) -> Result<(), Fail> {
    let mut file = Extents::new(rt.alloc());
    written_and_cut(&rt, &mut file)
}

#[test]
fn chunks_meet_without_a_seam(rt: HostRuntime) -> Result<(), Fail> {
    let alloc = rt.alloc();
    let round = b"\0\0wxyz".as_slice();
    for (len, read) in [
        read_round(alloc, 65_535)?,
        read_round(alloc, 65_536)?,
        read_round(alloc, 65_537)?,
        read_round(alloc, 1 << 30)?,
        read_round(alloc, 1 << 40)?,
    ] {
        assert!(rt; read.as_slice() == round, "of {len} bytes");
    }
    assert_eq!(rt; read_round(alloc, 65_535)?.0, 65_539);
    assert_eq!(rt; read_round(alloc, 1 << 40)?.0, 1_099_511_627_780);
    Ok(())
}

#[test]
fn bytes_of_two_chunks_are_not_lent(rt: HostRuntime) -> Result<(), Fail> {
    let mut file = Extents::new(rt.alloc());
    write(&mut file, 65_534, b"wxyz")?;
    assert!(rt; file.stored(65_534, 2) == Some(b"wx".as_slice()));
    assert!(rt; file.stored(65_536, 2) == Some(b"yz".as_slice()));
    assert!(rt; file.stored(65_535, 2).is_none());
    assert!(rt; file.stored(65_538, 2) == Some(b"".as_slice()));
    Ok(())
}
