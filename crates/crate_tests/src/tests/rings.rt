//! The bytes of one pipe.
use pipe_table::ring::PipeRing;
use std::test::Fail;

#[test]
fn bytes_leave_a_ring_in_the_order_in_which_they_were_put(rt: HostRuntime) -> Result<(), Fail> {
    let alloc = rt.alloc();
    let mut ring = PipeRing::new(alloc, 4)?;
    ring.reserve(6)?;
    assert_eq!(rt; ring.put_some(b"abcdef"), 4);
    let (front, back) = ring.first(3);
    assert!(rt; front == b"abc".as_slice());
    assert!(rt; back.is_empty());
    let mut two = [0; 2];
    assert_eq!(rt; ring.take_into(&mut two), 2);
    assert!(rt; two.as_slice() == b"ab".as_slice());
    assert_eq!(rt; ring.len(), 2);
    assert_eq!(rt; ring.room(), 2);
    ring.put_all(b"ef");
    ring.skip(1);
    ring.put_same(b'g', 1);
    let (front, back) = ring.first(9);
    assert!(rt; front == b"d".as_slice());
    assert!(rt; back == b"efg".as_slice());
    Ok(())
}
