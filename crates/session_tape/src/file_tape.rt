//! A tape in a file.

ghost use Rattle.std.specs.Prelude.{◌≡◌, ◌<◌, ◌↔◌, ◌⊎◌, true, IsTrue, None, is_some, OnOk, OnErr};
ghost use Rattle.std.specs.Fs.{asks_create_new, asks_write};
ghost use Rattle.std.specs.Io.KnownBytes.{append_known};
ghost use Rattle.session_tape.specs.Tapes.{counts, CountsFault, GrowsInPart, GoesTo, told_by};

use crate::tape::{MakeTape, Tape, Unmade};
use crate::telling::Telling;
use gate_outside::{Failed, Sink, StdStream, write_all};
use std::fs::{Files, OpenOptions};
use std::io;
use std::io::ErrorKind;
use std::os::unix::fs::OpenOptionsExt;

/// A file of the system's, once it is made. It says on standard error why a call of it has failed.
#[derive(Drop)]
pub struct FileTape<'a, R: Files + Eprint> {
    system: &'a R,
    file: Option<StdStream<Telling<'a, R, R::File>>>,
    faults: u64,
    there: u64,
}

impl<'a, R: Files + Eprint> FileTape<'a, R> {
    /// A tape whose file isn't made.
    pub fn new(system: &'a R) -> FileTape<'a, R>
        ensures made { result.file ≡ None }
        ensures counts { counts result.faults result.there ≡ counts 0 0 }
    {
        FileTape {
            system,
            file: None,
            faults: 0,
            there: 0,
        }
    }

    /// Whether a call has failed, or the file was there before.
    pub fn has_failed(&self) -> bool
        ensures { IsTrue result ↔ ((0 < self.now.faults) ⊎ (0 < self.now.there)) }
    {
        self.faults > 0 || self.there > 0
    }
}

impl<'a, R: Files + Eprint> Tape for FileTape<'a, R> {
    ghost use Rattle.std.specs.Prelude.{None, is_some};
    ghost use Rattle.session_tape.specs.Tapes.{counts};

    ghost made = { λ tape. is_some tape.file };

    ghost contents = { λ tape. None };

    ghost counts = { λ tape. counts tape.faults tape.there };

    fn is_made(&self) -> bool {
        self.file.is_some()
    }

    /// All of the bytes go to the file.
    fn put(&mut self, bytes: &[u8]) -> Result<(), Failed>
        requires { is_some self.old.file ≡ true }
        ensures made { is_some self.new.file ≡ true }
        ensures ok { OnOk result (None ≡ append_known None bytes.now) }
        ensures err { OnErr result (GrowsInPart None None bytes.now) }
        ensures cause { CountsFault result (counts self.old.faults self.old.there) (counts self.new.faults self.new.there) }
        ensures goes { OnOk result (GoesTo (told_by R.File.contents) self.old.file self.new.file bytes.now) }
    {
        match put_all(&mut self.file, bytes) {
            Ok(()) => Ok(()),
            Err(failed) => {
                self.faults = self.faults.saturating_add(1);
                Err(failed)
            }
        }
    }
}

impl<'a, R: Files + Eprint> MakeTape for FileTape<'a, R> {
    fn make(&mut self, name: &str) -> Result<(), Unmade> {
        match make_file(self.system, name) {
            Ok(file) => {
                let told = Telling {
                    system: self.system,
                    writer: file,
                };
                self.file = Some(StdStream::new(told));
                Ok(())
            }
            Err(error) => {
                let _ = self
                    .system
                    .eprintln(format_args!("usbgate: {name}: {error}"));
                if error.kind() == ErrorKind::AlreadyExists {
                    self.there = self.there.saturating_add(1);
                    return Err(Unmade::There);
                }
                self.faults = self.faults.saturating_add(1);
                Err(Unmade::Failed)
            }
        }
    }
}

/// Makes a file that isn't there yet, which its owner alone may read and write.
fn make_file<R: Files>(system: &R, name: &str) -> io::Result<R::File> {
    let mut how = OpenOptions::new();
    open_new(system, name, how.mode(0o600).write(true).create_new(true))
}

/// Opens the file, which must not be there.
fn open_new<R: Files>(system: &R, name: &str, how: &OpenOptions) -> io::Result<R::File>
    requires new { asks_create_new how.now ≡ true }
    requires write { asks_write how.now ≡ true }
{
    how.open(system, name)
}

/// Writes all of the bytes to what is there, or, where that fails, a front of them.
fn put_all<K: Sink>(there: &mut Option<K>, bytes: &[u8]) -> Result<(), Failed>
    requires { is_some there.old ≡ true }
    ensures made { is_some there.new ≡ true }
    ensures goes { OnOk result (GoesTo K.contents there.old there.new bytes.now) }
{
    let Some(sink) = there else {
        unreachable!();
    };
    write_all(sink, bytes)
}
