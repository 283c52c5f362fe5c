use crate::Outgoing;
use std::test::Fail;
use trap_bank::MemoryBank;

#[test]
fn pieces_wait_until_there_is_no_room(rt: HostRuntime) -> Result<(), Fail> {
    let mut bank = MemoryBank::new(rt.alloc())?;
    let mut outgoing = Outgoing::new(rt.alloc(), 4)?;
    assert_eq!(rt; outgoing.make_room(&mut bank, 2), Ok(()));
    outgoing.put(b"ab");
    assert_eq!(rt; outgoing.make_room(&mut bank, 2), Ok(()));
    outgoing.put(b"cd");
    assert_eq!(rt; bank.said(), b"".as_slice());
    assert_eq!(rt; outgoing.make_room(&mut bank, 1), Ok(()));
    outgoing.put(b"e");
    assert_eq!(rt; bank.said(), b"abcd".as_slice());
    assert_eq!(rt; outgoing.flush(&mut bank), Ok(()));
    assert_eq!(rt; outgoing.flush(&mut bank), Ok(()));
    assert_eq!(rt; bank.said(), b"abcde".as_slice());
    Ok(())
}

#[test]
fn what_could_not_be_said_waits_still(rt: HostRuntime) -> Result<(), Fail> {
    let mut bank = MemoryBank::new(rt.alloc())?;
    let mut outgoing = Outgoing::new(rt.alloc(), 4)?;
    outgoing.put(b"abc");
    bank.fail_at(1);
    assert!(rt; outgoing.make_room(&mut bank, 2).is_err());
    assert_eq!(rt; outgoing.flush(&mut bank), Ok(()));
    assert!(rt; bank.said().ends_with(b"abc"));
    Ok(())
}
