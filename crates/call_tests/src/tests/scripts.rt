//! Doors that play scripts.

use gate_outside::{Doors, Polled, Script, ScriptDoors, Side, Turn};
use std::alloc::Global;
use std::process::Abort;
use std::test::Fail;
use usb_base::{Bytes, Memory};

fn piece(alloc: Global, text: &str) -> Result<Turn, Memory> {
    let mut piece = Bytes::new(alloc);
    piece.append(text.as_bytes())?;
    Ok(Turn::Piece(piece))
}

// A script whose turns are texts: `-` waits, `!` fails, and any other is a piece.
fn script(alloc: Global, turns: &[&str]) -> Result<Script, Memory> {
    let mut script = Script::new(alloc);
    for turn in turns {
        script.push(match *turn {
            "-" => Turn::Wait,
            "!" => Turn::Fail,
            text => piece(alloc, text)?,
        })?;
    }
    Ok(script)
}

// Polls three bytes at a time. An answer is the text that came, or `-`, `!`, or `.` for the end.
fn polls(rt: &impl Abort, doors: &mut ScriptDoors, side: Side, answers: &[&str]) {
    for answer in answers {
        let mut buf = [0; 3];
        let text = match doors.poll(side, &mut buf) {
            Polled::Took(n) => &buf[..n],
            Polled::NotYet => b"-".as_slice(),
            Polled::Ended => b".".as_slice(),
            Polled::Failed => b"!".as_slice(),
        };
        assert!(rt; text == answer.as_bytes());
    }
}

// Of each row a piece, and how many of its bytes are taken, or none where the write fails.
const WRITTEN: [(&str, usize); 3] = [("gh", 2), ("ij", 1), ("j", 0)];

fn writes(rt: &impl Abort, doors: &mut ScriptDoors) {
    for (text, taken) in WRITTEN {
        assert!(rt; doors.write(Side::Host, text.as_bytes()).unwrap_or(0) == taken);
    }
}

fn doors_of_one_client(alloc: Global) -> Result<ScriptDoors, Memory> {
    let host = script(alloc, &["abcd", "", "-", "!", "e", ""])?;
    ScriptDoors::make(alloc, 3, host, script(alloc, &["f"])?, &[3], &[])
}

fn play(rt: &impl Abort, doors: &mut ScriptDoors) -> Result<(), Fail> {
    doors.dial("a:1")?;
    let answers = ["abc", "d", "!", "-", "!", "e", "."];
    polls(rt, doors, Side::Host, &answers);
    writes(rt, doors);
    assert!(rt; doors.written(Side::Host) == b"ghi".as_slice());
    Ok(())
}

#[test]
fn a_script_is_given_poll_by_poll(rt: HostRuntime) -> Result<(), Fail> {
    play(&rt, &mut doors_of_one_client(rt.alloc())?)
}
