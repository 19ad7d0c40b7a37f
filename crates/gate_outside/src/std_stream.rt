//! Standard input and output, or any other reader or writer, as a source or a sink.

ghost use Rattle.std.specs.Prelude.{◌≡◌, ◌<◌, length, IfOk};
ghost use Rattle.std.specs.Io.{ReadsAtMost, WritesAtMost};
ghost use Rattle.std.specs.Io.KnownBytes.{ReadConsumes, WriteAppends};
ghost use Rattle.gate_outside.specs.Faults.{HasCause};

use crate::fault::Failed;
use crate::reader::Reader;
use crate::sink::Sink;
use crate::source::Source;
use crate::writer::Writer;

/// A reader of std, as `rt.reader()`, or a writer, as `io::writer(&rt)`, whose faults are counted. It reads straight
/// into the caller's buffer, and writes straight through: write big pieces. It tells the bytes left, or held, where its
/// reader or writer does, and standard input and output don't.
#[derive(Drop)]
pub struct StdStream<T> {
    inner: T,
    faults: u64,
}

impl<T> StdStream<T> {
    ghost use Rattle.gate_outside.specs.Std.{inner_of, faults_of};

    /// A stream that hasn't failed yet.
    pub fn new(inner: T) -> Self
        ensures inner { inner_of result ≡ inner }
        ensures faults { faults_of result ≡ 0 }
    {
        StdStream { inner, faults: 0 }
    }
}

/// A read is one call of the reader, and answers as that did.
impl<R: Reader> Source for StdStream<R> {
    ghost use Rattle.gate_outside.specs.Std.{inner_of, faults_of};

    ghost remaining = { λ source. R.remaining (inner_of source) };

    ghost faults = { λ source. faults_of source };

    ghost read_gives = { λ old buf answer new. R.read_gives (inner_of old) buf answer (inner_of new) };

    fn read(&mut self, buf: &mut [u8]) -> Result<usize, Failed>
        requires { 0 < length buf.old }
        ensures bound { ReadsAtMost result buf.new }
        ensures bytes { ReadConsumes (R.remaining (inner_of self.old)) (R.remaining (inner_of self.new)) result buf.new }
        ensures cause { HasCause (faults_of self.old) (faults_of self.new) result }
        ensures gives { R.read_gives (inner_of self.old) buf.new result (inner_of self.new) }
    {
        let read = self.inner.read_once(buf);
        if read.is_err() {
            self.faults = self.faults.saturating_add(1);
        }
        read
    }
}

/// A write is one call of the writer, and answers as that did, but that a call that takes nothing fails too.
impl<W: Writer> Sink for StdStream<W> {
    ghost use Rattle.gate_outside.specs.Std.{inner_of, faults_of, Passes};

    ghost contents = { λ sink. W.contents (inner_of sink) };

    ghost faults = { λ sink. faults_of sink };

    ghost write_gives = { λ old piece answer new. Passes (λ given. W.write_gives (inner_of old) piece given (inner_of new)) answer };

    fn write(&mut self, piece: &[u8]) -> Result<usize, Failed>
        requires { 0 < length piece.now }
        ensures bound { WritesAtMost result piece.now }
        ensures some { IfOk result (λ n. 0 < n) }
        ensures bytes { WriteAppends (W.contents (inner_of self.old)) (W.contents (inner_of self.new)) result piece.now }
        ensures cause { HasCause (faults_of self.old) (faults_of self.new) result }
        ensures gives { Passes (λ answer. W.write_gives (inner_of self.old) piece.now answer (inner_of self.new)) result }
    {
        match self.inner.write_once(piece) {
            Ok(n) if n > 0 => Ok(n),
            _ => {
                self.faults = self.faults.saturating_add(1);
                Err(Failed)
            }
        }
    }
}
