#![tactic(auto)]

// A tape, run as it is read: never more than a buffer of it is held. Its lines go to a writer.
ghost use Rattle.chunks.specs.Chunks.{lines_text};
ghost use Rattle.streaming.specs.Stages.{end_of, Over, Broken, AfterBuffer};
ghost use Rattle.streaming.specs.Whole.{TapeRun, Ended, Failed, AfterFailure, OpeningRead};
ghost use Rattle.input.specs.Filled.{hand, rest};
ghost use Rattle.layout.specs.Layout.{sound};
ghost use Rattle.layout.specs.Places.{store_length};
ghost use Rattle.printing.specs.Sent.{Sent};
ghost use Rattle.reading.specs.Places.{stop_of, is_unknown};
ghost use Rattle.reading.specs.Reader.{next_at};
ghost use Rattle.std.specs.Prelude.{◌≡◌, true, false, ◌≤◌, length, IfOk, IfErr, IfSome, OnErr};

use arrayvec::ArrayString;
use chunks::{Pause, run_chunk};
use input::{BUFFER_SIZE, Buffer};
use metadata::{Answer, TABLE_ROOM, TapeFault};
use printing::{emit, print_line};
use reading::{HEAD, Next, body_at, next_at, open_tape};
use std::io;
use std::io::{ErrorKind, Read, Write};

// Where the run stands: the place of the next command among the bytes at hand, and its line.
#[derive(Clone, Copy)]
pub struct Place {
    pub at: usize,
    pub line: u64,
}

// How a tape ended: all of it was run, or its last answer is 40.
#[derive(Clone, Copy, PartialEq, Eq, Debug)]
pub enum End {
    Whole,
    Stopped,
}

// What a turn leaves: where the run goes on, or how the tape ended.
#[derive(Clone, Copy)]
enum Progress {
    On(Place),
    Over(End),
}

// What failed.
#[derive(Clone, Copy, Debug)]
pub enum Failure {
    Input(io::Error),
    Output(io::Error),
}

// The input ended: a command that is not whole is cut short.
#[tactic(auto, using(crate::proofs::Finishing::finishing))]
fn finish<W: Write>(out: &mut W, unrun: &[u8], line: u64) -> io::Result<End>
    requires { is_unknown (next_at unrun.now 0) ≡ false }
    ensures sent { Sent (W.contents out.old) (W.contents out.new) (lines_text line (stop_of (next_at unrun.now 0))) result }
    ensures how { IfOk result (λ how. how ≡ end_of (next_at unrun.now 0)) }
{
    match next_at(unrun, 0) {
        Next::Cut(b) => {
            print_line(out, line, Answer::BadTape(TapeFault::Cut, b))?;
            Ok(End::Stopped)
        }
        _ => Ok(End::Whole),
    }
}

// The commands at hand are run and their lines written; where none is left, what has arrived is read.
// `input`, `out`, `store`, `buffer` and `lines` are what is lent for the whole run: a struct of them would be taken apart again in each function.
// `lines` is made once and not in every turn, since a turn may be a read of a few bytes and `new` writes all of its room.
fn run_buffer<R: Read, W: Write>(
    input: &mut R,
    out: &mut W,
    store: &mut [u8],
    buffer: &mut Buffer,
    lines: &mut ArrayString<BUFFER_SIZE>,
    from: Place,
) -> Result<Progress, Failure>
    requires { (sound store.old ≡ true) × (from.at ≤ buffer.old.have) }
    ensures ok { IfOk result (AfterBuffer (record { unrun = rest buffer.old from.at; store = store.old; line = from.line; unread = R.remaining input.old; output = W.contents out.old }) buffer.new store.new (R.remaining input.new) (W.contents out.new)) }
    ensures err { OnErr result (Broken (record { unrun = rest buffer.old from.at; store = store.old; line = from.line; unread = R.remaining input.old; output = W.contents out.old }) store.new (R.remaining input.new) (W.contents out.new)) }
{
    lines.clear();
    let chunk = run_chunk(store, &buffer.at_hand()[from.at..], from.line, lines);
    if let Err(e) = emit(out, lines.as_bytes()) {
        return Err(Failure::Output(e));
    }
    let at = from.at + chunk.at;
    let line = chunk.line;
    match chunk.pause {
        Pause::Stopped => Ok(Progress::Over(End::Stopped)),
        Pause::Full => Ok(Progress::On(Place { at, line })),
        Pause::Short => match buffer.refill(input, at) {
            Err(e) => Err(Failure::Input(e)),
            Ok(0) => match finish(out, buffer.at_hand(), line) {
                Err(e) => Err(Failure::Output(e)),
                Ok(how) => Ok(Progress::Over(how)),
            },
            Ok(_) => Ok(Progress::On(Place { at: 0, line })),
        },
    }
}

// A proved loop has to end, and nothing says that an input does: the loop has more turns than any run uses up.
#[tactic(auto, using(crate::proofs::Advanced::advancing))]
fn run_all<R: Read, W: Write>(
    input: &mut R,
    out: &mut W,
    store: &mut [u8],
    buffer: &mut Buffer,
    from: Place,
) -> Result<End, Failure>
    requires { (sound store.old ≡ true) × (from.at ≤ buffer.old.have) }
    ensures ok { IfOk result (λ how. Over (record { unrun = rest buffer.old from.at; store = store.old; line = from.line; unread = R.remaining input.old; output = W.contents out.old }) how store.new (R.remaining input.new) (W.contents out.new) true) }
    ensures err { OnErr result (Broken (record { unrun = rest buffer.old from.at; store = store.old; line = from.line; unread = R.remaining input.old; output = W.contents out.old }) store.new (R.remaining input.new) (W.contents out.new)) }
{
    let mut lines = ArrayString::<BUFFER_SIZE>::new();
    let mut place = from;
    for _ in 0..u64::MAX {
        match run_buffer(input, out, store, buffer, &mut lines, place) {
            Ok(Progress::On(next)) => place = next,
            Ok(Progress::Over(how)) => return Ok(how),
            Err(e) => return Err(e),
        }
    }
    Err(Failure::Input(io::Error::from(ErrorKind::TimedOut)))
}

// The opening is read whole before it is looked at. More tables than there is room for are refused by the head alone.
#[tactic(auto, using(crate::proofs::Opened::opening))]
fn read_opening<R: Read>(input: &mut R, buffer: &mut Buffer) -> io::Result<()>
    requires { buffer.old.have ≡ 0 }
    ensures { OpeningRead (hand buffer.new) (R.remaining input.old) (R.remaining input.new) result }
{
    buffer.fill_to(input, HEAD)?;
    let head = buffer.at_hand();
    if head.len() < HEAD || TABLE_ROOM < usize::from(head[0]) {
        return Ok(());
    }
    let body = body_at(head);
    buffer.fill_to(input, body)
}

// The tape on an input, its lines on an output, its rows in a lent block. After a failure nothing more is run or written.
#[tactic(auto, using(crate::proofs::Opened::opened_inside, crate::proofs::Opened::opened_sound))]
pub fn run_tape<R: Read, W: Write>(
    input: &mut R,
    out: &mut W,
    store: &mut [u8],
) -> Result<End, Failure>
    requires { length store.old ≡ store_length }
    ensures ran { IfOk result (λ how. TapeRun how store.new (R.remaining input.old) (R.remaining input.new) (W.contents out.old) (W.contents out.new)) }
    ensures whole { IfOk result (λ how. IfSome (R.remaining input.old) (λ tape. Ended tape how store.new (W.contents out.old) (W.contents out.new))) }
    ensures failed { OnErr result (IfSome (R.remaining input.old) (λ tape. Failed tape store.old store.new (W.contents out.old) (W.contents out.new))) }
    ensures block { IfErr result (λ failure. AfterFailure failure store.old store.new) }
{
    let mut buffer = Buffer::new();
    if let Err(e) = read_opening(input, &mut buffer) {
        return Err(Failure::Input(e));
    }
    let answer = open_tape(buffer.at_hand(), store);
    if !answer.is_applied() {
        return match print_line(out, 0, answer) {
            Err(e) => Err(Failure::Output(e)),
            Ok(()) => Ok(End::Stopped),
        };
    }
    let at = body_at(buffer.at_hand());
    run_all(input, out, store, &mut buffer, Place { at, line: 1 })
}
