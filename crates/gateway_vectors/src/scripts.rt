//! What links give, by the lines of a tape.

use gate_outside::{Script, Scripts, Turn};
use hex::FromHexError;
use std::alloc::{AllocError, Global};
use usb_base::{Bytes, Memory};

/// What the link of a side gives, a turn for each line that begins with its letter.
pub fn script_of(alloc: Global, lines: &str, letter: &str) -> Result<Script, Memory> {
    let mut script = Script::new(alloc);
    for line in lines.split('\n') {
        if let Some(word) = line.strip_prefix(letter) {
            script.push(turn_of(alloc, word)?)?;
        }
    }
    Ok(script)
}

/// What the links of clients give that come one after another. A line `c.` ends one.
pub fn scripts_of(alloc: Global, lines: &str) -> Result<Scripts, Memory> {
    let mut scripts = Scripts::new(alloc);
    for of_client in lines.split("c.\n") {
        let script = script_of(alloc, of_client, "c ")?;
        if !script.is_empty() {
            scripts.push(script)?;
        }
    }
    Ok(scripts)
}

/// `-` brings nothing, and what is no bytes is a poll that fails.
fn turn_of(alloc: Global, word: &str) -> Result<Turn, Memory> {
    if word == "-" {
        return Ok(Turn::Wait);
    }
    match hex::decode(alloc, word) {
        Ok(decoded) => Ok(Turn::Piece(bytes_of(alloc, &decoded)?)),
        Err(FromHexError::OutOfMemory) => Err(AllocError.into()),
        Err(_) => Ok(Turn::Fail),
    }
}

fn bytes_of(alloc: Global, decoded: &[u8]) -> Result<Bytes, Memory> {
    let mut bytes = Bytes::new(alloc);
    bytes.append(decoded)?;
    Ok(bytes)
}
