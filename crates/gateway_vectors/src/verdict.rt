//! Whether a run did what was wanted.

use crate::cut::joined;
use crate::how::How;
use crate::runs::Came;
use std::alloc::Global;
use tape_run::Status;
use usb_base::{Memory, Side};

/// Whether a run printed this text and had this end; if not, where they part.
pub fn told(
    alloc: Global,
    came: &Came,
    wanted: &str,
    end: &str,
    how: &How,
) -> Result<String, Memory> {
    if came.is_joined {
        return told_joined(alloc, came, wanted, end);
    }
    if how.last.is_some() {
        let printed = last_line(came.text.as_str());
        return verdict(
            alloc,
            printed.as_bytes(),
            wanted.as_bytes(),
            came.status,
            end,
        );
    }
    let wanted = wanted.as_bytes();
    let printed = &wanted[..how.printed.min(wanted.len())];
    verdict(alloc, came.text.as_bytes(), printed, came.status, end)
}

/// The last line, with its LF.
fn last_line(text: &str) -> &str {
    text.split_inclusive('\n').last().unwrap_or("")
}

/// The same where only the bytes of each side are compared, however they are cut.
fn told_joined(alloc: Global, came: &Came, wanted: &str, end: &str) -> Result<String, Memory> {
    let wanted = joined(alloc, wanted)?;
    let printed = joined(alloc, came.text.as_str())?;
    verdict(
        alloc,
        printed.as_bytes(),
        wanted.as_bytes(),
        came.status,
        end,
    )
}

fn verdict(
    alloc: Global,
    came: &[u8],
    wanted: &[u8],
    status: Status,
    end: &str,
) -> Result<String, Memory> {
    if came != wanted {
        return parted(alloc, came, wanted);
    }
    let ended = end_of(alloc, status)?;
    if ended.as_str() == end {
        return Ok("ok".to_string(alloc)?);
    }
    Ok(format!(in alloc; "ended by {ended}, not by {end}")?)
}

/// How a run ended: its exit code, and the side of a fault or the number of a bad line.
fn end_of(alloc: Global, status: Status) -> Result<String, Memory> {
    let code = status.code();
    Ok(match status {
        Status::LinkFault(Side::Client) => format!(in alloc; "{code}:client")?,
        Status::LinkFault(Side::Host) => format!(in alloc; "{code}:host")?,
        Status::BadTape(line) => format!(in alloc; "{code}:{line}")?,
        _ => format!(in alloc; "{code}")?,
    })
}

/// Where two texts part, and what came there.
fn parted(alloc: Global, came: &[u8], wanted: &[u8]) -> Result<String, Memory> {
    let at = place_of(came, wanted);
    let came = line_at(came, at);
    let wanted = line_at(wanted, at);
    Ok(format!(in alloc; "at byte {at} came '{came}', not '{wanted}'")?)
}

/// The first place at which two texts are not the same.
fn place_of(came: &[u8], wanted: &[u8]) -> usize {
    for (at, (one, other)) in came.iter().zip(wanted).enumerate() {
        if one != other {
            return at;
        }
    }
    came.len().min(wanted.len())
}

/// What is left of the line at this place, 80 bytes of it at most.
fn line_at(text: &[u8], at: usize) -> &str {
    let rest = text.get(at..).unwrap_or(&[]);
    let line = rest.split(|byte| *byte == b'\n').next().unwrap_or(&[]);
    let front = line.get(..80).unwrap_or(line);
    str::from_utf8(front).unwrap_or("")
}
