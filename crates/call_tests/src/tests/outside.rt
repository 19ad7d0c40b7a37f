//! Readers and writers of std as source and sink: each call is one call, of which the first fails.

ghost use Rattle.std.specs.Prelude.{◌<◌, length};

use gate_outside::{Failed, Sink, Source, StdStream, write_all};
use std::io;
use std::io::{Read, Write};
use std::process::Abort;

// One read gives this, or fails.
fn reads<S: Source>(rt: &impl Abort, source: &mut S, wanted: Option<&[u8]>) {
    let mut buf = [0; 2];
    match source.read(&mut buf) {
        Ok(n) => assert!(rt; wanted == Some(&buf[..n])),
        Err(Failed) => assert!(rt; wanted.is_none()),
    }
}

// One write takes so many bytes, or fails.
fn writes<K: Sink>(rt: &impl Abort, sink: &mut K, piece: &[u8], taken: Option<usize>)
    requires { 0 < length piece.now }
{
    assert!(rt; sink.write(piece).ok() == taken);
}

/// Reads and writes, but fails at the first call.
#[derive(Drop)]
struct FirstFails<T> {
    inner: T,
    failed: bool,
}

impl<T> FirstFails<T> {
    fn first(&mut self) -> io::Result<()> {
        if self.failed {
            return Ok(());
        }
        self.failed = true;
        Err(io::Error::from(io::ErrorKind::Interrupted))
    }
}

impl<T: Read> Read for FirstFails<T> {
    fn read(&mut self, buf: &mut [u8]) -> io::Result<usize> {
        self.first()?;
        self.inner.read(buf)
    }
}

impl<T: Write> Write for FirstFails<T> {
    fn write(&mut self, piece: &[u8]) -> io::Result<usize> {
        self.first()?;
        self.inner.write(piece)
    }

    fn flush(&mut self) -> io::Result<()> {
        self.inner.flush()
    }
}

#[test]
fn a_reader_of_std_is_called_once_a_read(rt: HostRuntime) {
    let inner = "abc".as_bytes();
    let mut source = StdStream::new(FirstFails {
        inner,
        failed: false,
    });
    reads(&rt, &mut source, None);
    reads(&rt, &mut source, Some(b"ab"));
    reads(&rt, &mut source, Some(b"c"));
    reads(&rt, &mut source, Some(b""));
}

#[test]
fn a_writer_of_std_is_called_once_a_write(rt: HostRuntime) {
    let mut room = [0; 3];
    let inner = &mut room[..];
    let mut sink = StdStream::new(FirstFails {
        inner,
        failed: false,
    });
    writes(&rt, &mut sink, b"ab", None);
    assert!(rt; write_all(&mut sink, b"ab").is_ok());
    writes(&rt, &mut sink, b"cd", Some(1));
    writes(&rt, &mut sink, b"d", None);
    drop(sink);
    assert!(rt; room == [b'a', b'b', b'c']);
}
