//! The program: it runs the command that its words name, over standard input and output and over sockets, and ends
//! with the run's exit code.
#![tactic(auto)]

ghost use Rattle.std.specs.Prelude.{◌≡◌, IfOk, drop, map, string_bytes, false};
ghost use Rattle.std.specs.Process.{exit_status};
ghost use Rattle.usb_base.specs.declared.side.Side.TheVariants.{Client, Host};
ghost use Rattle.tape_run.specs.Code.{code_of};
ghost use Rattle.usbgate_commands.specs.words.Words.{texts};

use gate_outside::{Doors, NoDoors, StdStream};
use gate_sockets::TcpDoors;
use session_tape::FileTape;
use std::alloc::{AllocError, Global};
use std::net::Net;
use std::process::ExitCode;
use std::rt::{Clock, Env, Files};
use std::{env, io, net};
use tape_run::Status;
use usb_base::{Memory, Side};
use usbgate::run;
use usbgate_commands::{COMMANDS, pace_of, wrong_with};

fn main(rt: HostRuntime) -> ExitCode {
    exit_code(run_args(&rt))
}

/// What tells the system how the run ended.
fn exit_code(status: Status) -> ExitCode
    ensures { exit_status result ≡ code_of status }
{
    ExitCode::from(status.code())
}

/// Runs the command that the arguments name, over the standard streams, over sockets and over a file to record in.
/// Where the system gives no sockets that can be waited for, no link comes up.
fn run_args(
    rt: &(impl Env
        + Input
        + Print
        + Eprint
        + Clock
        + Files
        + AllocGlobal
        + Net<Stream = net::TcpStream, Listener = net::TcpListener>),
) -> Status {
    let args = match args(rt) {
        Ok(args) => args,
        Err(_) => return Status::OutOfMemory,
    };
    let words = match words_behind_the_name(rt.alloc(), &args) {
        Ok(words) => words,
        Err(_) => return Status::OutOfMemory,
    };
    match TcpDoors::new(rt, rt.alloc()) {
        Ok(mut doors) => {
            if let Ok(Some(interval)) = pace_of(rt.alloc(), &words) {
                doors.keep_pace(interval);
            }
            let ran = run_words(rt, &words, &mut doors);
            if doors.were_used() {
                tell_end(rt, &ran);
            } else if let Status::Usage = ran.status {
                tell_wrong(rt, &words, &ran);
            }
            ran.status
        }
        Err(error) => {
            let ran = run_words(rt, &words, &mut NoDoors::new());
            match ran.status {
                Status::LinkFault(_) => tell_no_sockets(rt, &error),
                Status::Usage => tell_wrong(rt, &words, &ran),
                _ => {}
            }
            ran.status
        }
    }
}

/// What came of a run.
#[derive(Clone, Copy)]
struct Ran {
    status: Status,
    /// The file to record in was there before, or couldn't be made or written; the tape has said so.
    is_unrecorded: bool,
}

/// Runs the words over the standard streams, these doors, and a file to record in.
fn run_words<D: Doors>(
    rt: &(impl Input + Print + Eprint + Files + AllocGlobal),
    words: &[&str],
    doors: &mut D,
) -> Ran
    requires down { ((D.link doors.old Client).up ≡ false) × ((D.link doors.old Host).up ≡ false) }
{
    let mut tape = StdStream::new(rt.reader());
    let mut out = StdStream::new(io::writer(rt));
    let mut recording = FileTape::new(rt);
    let status = run(
        rt.alloc(),
        words,
        &mut tape,
        &mut out,
        doors,
        &mut recording,
    );
    Ran {
        status,
        is_unrecorded: recording.has_failed(),
    }
}

/// The program's name and its words. Where one isn't UTF-8 there are none, and none are no command.
fn args(rt: &(impl Env + AllocGlobal)) -> Result<Vec<String>, Memory> {
    match env::args(rt) {
        Ok(args) => Ok(args.collect(rt.alloc())?),
        Err(error) if error.kind() == io::ErrorKind::OutOfMemory => Err(AllocError.into()),
        Err(_) => Ok(Vec::new(rt.alloc())),
    }
}

/// All words behind the program's name, in order.
fn words_behind_the_name(alloc: Global, args: &[String]) -> Result<Vec<&str>, Memory>
    ensures { IfOk result (λ words. texts words.items ≡ drop 1 (map string_bytes args.now)) }
{
    let mut words = Vec::new(alloc);
    if let [_, others @ ..] = args {
        for arg in others {
            words.push(arg.as_str())?;
        }
    }
    Ok(words)
}

/// Says on standard error what is wrong with words that are no command, and which commands there are. Where the words
/// are one, but the file to record in was there before, the tape has said so.
fn tell_wrong(rt: &(impl Eprint + AllocGlobal), words: &[&str], ran: &Ran) {
    if ran.is_unrecorded {
        return;
    }
    if let Ok(wrong) = wrong_with(rt.alloc(), words) {
        let _ = rt.eprint(wrong);
    }
    let _ = rt.eprint(COMMANDS);
}

/// Says on standard error why there is no link.
fn tell_no_sockets(rt: &impl Eprint, error: &io::Error) {
    let _ = rt.eprintln(format_args!("usbgate: no sockets: {error}"));
}

/// Says on standard error why serving or lending has ended. A recording that has failed has ended it.
fn tell_end(rt: &impl Eprint, ran: &Ran) {
    let why = match ran.status {
        Status::Done => "no link is left",
        Status::Refused => "no link is left, and a side was refused",
        Status::LinkFault(Side::Client) => "a fault at the clients' side",
        Status::LinkFault(Side::Host) => "a fault at the host's side",
        Status::Idle => "nothing has come for as many rounds as --idle says",
        Status::Spent => "as much has come as may",
        Status::WriteFault if ran.is_unrecorded => "the recording can't be written",
        Status::WriteFault => "standard output can't be written",
        Status::OutOfMemory => "memory ran out",
        Status::Usage | Status::ReadFault | Status::BadTape(_) => return,
    };
    let _ = rt.eprintln(format_args!("usbgate: ended: {why}"));
}
