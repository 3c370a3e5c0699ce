// That no more is read than is asked for, which no contract says: what is left of a reader is not seen once it is gone.
use super::front_of;
use std::io;
use std::test::Fail;

#[test]
fn endless_reader_is_left(rt: HostRuntime) -> Result<(), Fail> {
    let front = front_of(rt.alloc(), io::repeat(b'a'), 5)?;
    assert_eq!(rt; front.as_slice(), b"aaaaa".as_slice());
    Ok(())
}
