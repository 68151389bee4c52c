#![tactic(auto)]

// The tape program: the command tape on standard input, output lines on standard output. It reads as it goes and never holds
// more than a buffer of the tape. With --dump it prints the final tables and marks behind the last line. What failed is said on standard error.
use dump::dump_store;
use layout::STORE_BYTES;
use std::env::{Env, FillError};
use std::io;
use std::io::Print;
use std::process::ExitCode;
use streaming::{End, Failure, run_tape};
use waiting::Waiting;

// How much of an argument is read; a longer one is none that is accepted.
const WORD_ROOM: usize = 4096;

const USAGE: &[u8] = b"tape: accepted: no argument, --dump or --help\n\
    The tape is standard input; each command's line goes to standard output.\n\
    --dump prints the final tables and marks behind the last line.\n\
    Status: 0 all of the tape was run, 1 it ended with answer 40 or its opening was refused, 2 wrong arguments, 3 reading or writing failed.\n";

const STATUS_STOPPED: u8 = 1;

const STATUS_ARGUMENTS: u8 = 2;

const STATUS_FAILED: u8 = 3;

// What is asked of the program. None of the ways lacks a value that another has, so it is no `Option`.
#[derive(Clone, Copy, PartialEq, Eq)]
enum Mode {
    Lines,
    LinesAndDump,
    Help,
}

// No argument, or one that is accepted; none where it is anything else.
fn asked(rt: HostRuntime) -> Option<Mode> {
    let mut word = [0u8; WORD_ROOM];
    match rt.arg(1, &mut word) {
        Err(FillError::NotPresent) => Some(Mode::Lines),
        Err(FillError::TooLong) => None,
        Ok(n) => {
            if !is_last(rt) {
                return None;
            }
            if &word[..n] == b"--dump".as_slice() {
                return Some(Mode::LinesAndDump);
            }
            if &word[..n] == b"--help".as_slice() {
                return Some(Mode::Help);
            }
            None
        }
    }
}

// No second argument.
fn is_last(rt: HostRuntime) -> bool {
    let mut next = [0u8; 1];
    match rt.arg(2, &mut next) {
        Err(FillError::NotPresent) => true,
        Err(FillError::TooLong) => false,
        Ok(_) => false,
    }
}

// The tape is run and, where that is asked, its final tables and marks are printed.
fn run(rt: HostRuntime, mode: Mode) -> Result<End, Failure> {
    let mut input = Waiting {
        stream: rt.stdin(),
        clock: rt,
    };
    let mut out = Waiting {
        stream: rt.stdout(),
        clock: rt,
    };
    let mut store = [0u8; STORE_BYTES];
    let end = run_tape(&mut input, &mut out, &mut store)?;
    if mode == Mode::LinesAndDump {
        if let Err(e) = dump_store(&mut out, &store) {
            return Err(Failure::Output(e));
        }
    }
    Ok(end)
}

// What failed, in the system's words and with its number. A failure to say so is passed over: the status says it too.
fn say_failure(rt: HostRuntime, stream: &str, e: io::Error) {
    let _ = rt.stderr().println(format_args!("tape: {stream}: {e}"));
}

fn main(rt: HostRuntime) -> ExitCode {
    let Some(mode) = asked(rt) else {
        let _ = rt.stderr().write_all(USAGE);
        return ExitCode::from(STATUS_ARGUMENTS);
    };
    if mode == Mode::Help {
        if let Err(e) = rt.stdout().write_all(USAGE) {
            say_failure(rt, "standard output", e);
            return ExitCode::from(STATUS_FAILED);
        }
        return ExitCode::SUCCESS;
    }
    match run(rt, mode) {
        Ok(End::Whole) => return ExitCode::SUCCESS,
        Ok(End::Stopped) => return ExitCode::from(STATUS_STOPPED),
        Err(Failure::Input(e)) => say_failure(rt, "standard input", e),
        Err(Failure::Output(e)) => say_failure(rt, "standard output", e),
    }
    ExitCode::from(STATUS_FAILED)
}
