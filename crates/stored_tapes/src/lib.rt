#![tactic(auto)]

// Stored tapes replayed, whichever way the commands take. The input has for each tape the lengths of its name and of its bytes, eight bytes each,
// little-endian, then both; for each its name is printed, and what the replay prints. The expected output is the oracle's (oracle/README.md).
ghost use Rattle.printing.specs.Sent.{Sent};
ghost use Rattle.std.specs.Io.KnownBytes.{Appends, Consumes, IsAtEnd};
ghost use Rattle.std.specs.Prelude.{◌≡◌, ◌++◌, length, IfOk, min};
ghost use Rattle.stored_tapes.specs.AnswerText.{answer_text};
ghost use Rattle.stored_tapes.specs.Replays.{replay_text, extent_text};
ghost use Rattle.stored_tapes.specs.StoredTapes.{name_line, HeadRead, ExtentReplayed, Replayed};

use arrayvec::ArrayString;
use lines::{LINE_ROOM, put_line};
use metadata::Reported;
use numbers::number8;
use printing::emit;
use std::io;
use std::io::{ErrorKind, Read, Write};
use std::marker::PhantomData;

// Bytes of a head, of a name and of a tape.
const HEAD: usize = 16;

const NAME_ROOM: usize = 4096;

const TAPE_ROOM: usize = 65536;

// How much of a stored tape was replayed: all of it, or, where a program has no room for its answers, nothing.
#[derive(Clone, Copy, PartialEq, Eq, Debug)]
pub enum Extent {
    Whole,
    Short,
}

// A way that the commands of a tape take: it replays all of a tape, or fails.
pub trait Replay {
    // A tape's lines, and the final tables and marks: the same whichever way, and all of them, or an error.
    fn replay<W: Write>(out: &mut W, tape: &[u8]) -> io::Result<()>
        ensures { IfOk result (λ _. Appends (W.contents out.old) (W.contents out.new) (replay_text tape.now)) };
}

// A way that says how much of a tape it replayed: it may have no room for the answers.
pub trait ReplayExtent {
    // A tape's lines, and the final tables and marks: the same whichever way, and all of them, or an error. In place of them, where there is no room for the answers, a line that says so.
    fn replay_extent<W: Write>(out: &mut W, tape: &[u8]) -> io::Result<Extent>
        ensures { IfOk result (λ how. Appends (W.contents out.old) (W.contents out.new) (extent_text how tape.now)) };
}

// A way that replays all of a tape or fails, as one that says how much it replayed.
struct Entire<P> {
    way: PhantomData<P>,
}

impl<P: Replay> ReplayExtent for Entire<P> {
    fn replay_extent<W: Write>(out: &mut W, tape: &[u8]) -> io::Result<Extent>
        ensures text { IfOk result (λ how. Appends (W.contents out.old) (W.contents out.new) (extent_text how tape.now)) }
        ensures whole { IfOk result (λ how. how ≡ Extent.Whole) }
    {
        P::replay(out, tape)?;
        Ok(Extent::Whole)
    }
}

// An answer's number as a byte. One above 255, which no answer has, reads as 255.
fn in_a_byte(n: u64) -> u8
    ensures { result ≡ min n 255 }
{
    u8::try_from(n).unwrap_or(u8::MAX)
}

// The line of the answer whose four numbers these are, by the function that writes the lines of the program.
#[tactic(auto, using(crate::proofs::Answering::answering))]
pub fn print_answer<W: Write>(to: &mut W, numbers: &[u64], line: u64) -> io::Result<()>
    ensures { Sent (W.contents to.old) (W.contents to.new) (answer_text line numbers.now) result }
{
    let [number, a, b, c] = numbers else {
        return Ok(());
    };
    let number = in_a_byte(*number);
    let mut text = ArrayString::<LINE_ROOM>::new();
    put_line(
        &mut text,
        line,
        &Reported {
            number,
            operands: [*a, *b, *c],
        },
    );
    emit(to, text.as_bytes())
}

// The head of the next stored tape; none where the input ended before it.
fn next_head<R: Read>(input: &mut R) -> io::Result<Option<[u8; HEAD]>>
    ensures { IfOk result (HeadRead (R.remaining input.old) (R.remaining input.new)) }
{
    let mut head = [0u8; HEAD];
    let got = input.read(&mut head)?;
    if got == 0 {
        return Ok(None);
    }
    input.read_exact(&mut head[got..])?;
    Ok(Some(head))
}

// A name and the tape behind it, as long as they are lent.
#[tactic(auto, using(crate::proofs::Reading::both_read))]
fn read_both<R: Read>(input: &mut R, name: &mut [u8], tape: &mut [u8]) -> io::Result<()>
    ensures read { IfOk result (λ _. Consumes (R.remaining input.old) (R.remaining input.new) (name.new ++ tape.new)) }
    ensures name_length { length name.new ≡ length name.old }
    ensures tape_length { length tape.new ≡ length tape.old }
{
    input.read_exact(name)?;
    input.read_exact(tape)
}

// A name on a line of its own: any bytes, so no `str` and no `Display`.
fn print_name<W: Write>(out: &mut W, name: &[u8]) -> io::Result<()>
    ensures { IfOk result (λ _. Appends (W.contents out.old) (W.contents out.new) (name_line name.now)) }
{
    emit(out, b"tape ")?;
    emit(out, name)?;
    emit(out, b"\n")
}

// The name and the tape behind a head, and what the tape gives. Both are read before anything is printed of them.
fn replay_next<P: ReplayExtent, R: Read, W: Write>(
    input: &mut R,
    out: &mut W,
    head: &[u8; HEAD],
) -> io::Result<Extent>
    ensures { IfOk result (λ how. ExtentReplayed how head.now (R.remaining input.old) (R.remaining input.new) (W.contents out.old) (W.contents out.new)) }
{
    let name_size = number8(head, 0) as usize;
    let tape_size = number8(head, 8) as usize;
    if NAME_ROOM < name_size || TAPE_ROOM < tape_size {
        return Err(io::Error::from(ErrorKind::InvalidData));
    }
    let mut names = [0u8; NAME_ROOM];
    let (name, _) = names.split_at_mut(name_size);
    let mut tapes = [0u8; TAPE_ROOM];
    let (tape, _) = tapes.split_at_mut(tape_size);
    read_both(input, name, tape)?;
    print_name(out, name)?;
    P::replay_extent(out, tape)
}

// Every stored tape of an input, to its end. One that is cut short, or longer than there is room for, is an error, and so is a read or a write that fails.
// One whose answers have no room is an error at the end: the tapes behind it are replayed first.
// The loop has more turns than any input uses up: a proved loop has to end.
#[tactic(auto, using(crate::proofs::Reading::reading))]
pub fn replay_extents<P: ReplayExtent, R: Read, W: Write>(
    input: &mut R,
    out: &mut W,
) -> io::Result<()>
    ensures replayed { IfOk result (λ _. Replayed (R.remaining input.old) (R.remaining input.new) (W.contents out.old) (W.contents out.new)) }
    ensures whole { IfOk result (λ _. IsAtEnd (R.remaining input.new)) }
{
    let mut all = Extent::Whole;
    for _ in 0..u64::MAX {
        let Some(head) = next_head(input)? else {
            return match all {
                Extent::Whole => Ok(()),
                Extent::Short => Err(io::Error::from(ErrorKind::InvalidData)),
            };
        };
        let how = replay_next::<P, R, W>(input, out, &head)?;
        if let Extent::Short = how {
            all = Extent::Short;
        }
    }
    Err(io::Error::from(ErrorKind::TimedOut))
}

// The same for a way that replays all of a tape or fails. Its first failure ends the run.
pub fn replay_all<P: Replay, R: Read, W: Write>(input: &mut R, out: &mut W) -> io::Result<()>
    ensures replayed { IfOk result (λ _. Replayed (R.remaining input.old) (R.remaining input.new) (W.contents out.old) (W.contents out.new)) }
    ensures whole { IfOk result (λ _. IsAtEnd (R.remaining input.new)) }
{
    replay_extents::<Entire<P>, R, W>(input, out)
}

#[cfg(test)]
mod tests;
