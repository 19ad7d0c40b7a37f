//! Numbers of 64 bits, which no row of a program appends.

use std::process::Abort;
use std::test::Fail;
use usb_base::{Bytes, le_u64_at, push_le_u64};

#[test]
fn an_appended_number_is_read_again(rt: HostRuntime) -> Result<(), Fail> {
    let mut out = Bytes::new(rt.alloc());
    push_le_u64(&mut out, 0x0807_0605_0403_0201)?;
    assert!(rt; out.as_slice() == [1, 2, 3, 4, 5, 6, 7, 8].as_slice());
    assert!(rt; le_u64_at(out.as_slice(), 0) == 0x0807_0605_0403_0201);
    Ok(())
}
