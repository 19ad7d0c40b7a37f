//! A writer that says why it has failed.

use std::io;
use std::io::Write;

/// Hands all on to a writer, and says on standard error why a write of that has failed.
#[derive(Drop)]
pub struct Telling<'a, R, W> {
    pub system: &'a R,
    pub writer: W,
}

impl<'a, R: Eprint, W: Write> Write for Telling<'a, R, W> {
    ghost contents = { λ telling. W.contents telling.writer };

    fn write(&mut self, buf: &[u8]) -> io::Result<usize> {
        let answer = self.writer.write(buf);
        if let Err(error) = &answer {
            let _ = self
                .system
                .eprintln(format_args!("usbgate: the recording: {error}"));
        }
        answer
    }

    fn flush(&mut self) -> io::Result<()> {
        self.writer.flush()
    }
}
