//! The doors over TCP against themselves, on loopback.

ghost use Rattle.std.specs.Prelude.{◌≡◌, true, false, IsTrue, Ok};
ghost use Rattle.usb_base.specs.declared.side.Side.TheVariants.{Client, Host};

use gate_outside::{Doors, Failed, Polled, Side};
use gate_sockets::TcpDoors;
use std::net::{Net, TcpListener, TcpStream};
use std::process::Abort;
use std::test::Fail;
use usb_base::{Bytes, Memory};

/// Any port that is free.
const ANY: &str = "127.0.0.1:0";

const LOOKS: u32 = 1_000_000;

// An address of this machine whose port is free.
fn free_addr<R: AllocGlobal + Net<Stream = TcpStream, Listener = TcpListener>>(
    rt: &R,
) -> Result<String, Fail> {
    let probe = TcpListener::bind(rt, ANY)?;
    let addr = probe.local_addr()?;
    Ok(format!(in rt.alloc(); "{addr}")?)
}

// What the side's peer sends, to its end.
fn poll_to_end<D: Doors>(doors: &mut D, side: Side, came: &mut Bytes) -> Result<Polled, Memory>
    requires up { (D.link doors.old side).up ≡ true }
{
    let mut buf = [0; 8];
    for _ in 0..LOOKS {
        match doors.poll(side, &mut buf) {
            Polled::Took(n) => came.append(&buf[..n])?,
            Polled::NotYet => {}
            last => return Ok(last),
        }
    }
    Ok(Polled::NotYet)
}

// Whether a client comes at the first look or the second.
fn comes<D: Doors>(doors: &mut D) -> Result<bool, Failed>
    requires made { IsTrue (D.door doors.old).made }
    requires down { (D.link doors.old Client).up ≡ false }
    ensures up { result ≡ Ok true → (D.link doors.new Client).up ≡ true }
    ensures other { D.link doors.new Host ≡ D.link doors.old Host }
{
    Ok(doors.accept()? || doors.accept()?)
}

// The doors dial themselves, and the host writes three bytes and ends.
fn write_to_themselves<D: Doors>(rt: &impl Abort, addr: &str, doors: &mut D)
    requires down { (D.link doors.old Client).up ≡ false }
    ensures up { (D.link doors.new Client).up ≡ true }
{
    assert!(rt; doors.dial("nowhere without a port") == Err(Failed));
    assert!(rt; doors.listen(addr) == Ok(()));
    assert!(rt; doors.dial(addr) == Ok(()));
    assert!(rt; comes(doors) == Ok(true));
    assert!(rt; doors.write(Side::Host, b"abc") == Ok(3));
    doors.close(Side::Host);
}

// What the client is sent, which is no more than three bytes.
fn read_from_themselves<D: Doors>(
    rt: &impl Abort,
    doors: &mut D,
    came: &mut Bytes,
) -> Result<(), Fail>
    requires up { (D.link doors.old Client).up ≡ true }
{
    let last = poll_to_end(doors, Side::Client, came)?;
    assert!(rt; came.as_slice() == b"abc".as_slice());
    assert!(rt; last == Polled::Ended);
    Ok(())
}

#[test]
fn three_bytes_and_the_end_go_from_the_host_to_the_client(rt: HostRuntime) -> Result<(), Fail> {
    let addr = free_addr(&rt)?;
    let mut doors = TcpDoors::new(&rt, rt.alloc())?;
    write_to_themselves(&rt, addr.as_str(), &mut doors);
    read_from_themselves(&rt, &mut doors, &mut Bytes::new(rt.alloc()))
}
