#![tactic(auto)]

// Stored tapes through `store::apply`, one command a call, on a store that lives between the calls.
ghost use Rattle.std.specs.Io.KnownBytes.{Appends};
ghost use Rattle.std.specs.Prelude.{◌≡◌, IfOk};
ghost use Rattle.store.specs.Slices.{opening_length};
ghost use Rattle.stored_tapes.specs.Replays.{AtOpening, LinesWritten, extent_text};
ghost use Rattle.vectors_apply.specs.OneAnswer.{OneAnswer};

use dump::dump_store;
use layout::STORE_BYTES;
use printing::print_line;
use reading::{Next, next_at};
use std::io;
use std::io::{ErrorKind, Write};
use std::process::ExitCode;
use store::{apply, open, opening_bytes};
use stored_tapes::{Extent, ReplayExtent, print_answer, replay_extents};

// One call, and the line of its one answer.
fn apply_one<W: Write>(out: &mut W, store: &mut [u8], commands: &[u8], line: u64) -> io::Result<()>
    ensures { IfOk result (λ _. OneAnswer store.old commands.now line store.new (W.contents out.old) (W.contents out.new)) }
{
    let mut numbers = [0u64; 4];
    let Ok(1) = apply(store, commands, &mut numbers) else {
        return Err(io::Error::from(ErrorKind::InvalidData));
    };
    print_answer(out, &numbers, line)
}

// One call for each command; what is no whole command goes in the last.
#[tactic(auto, using(reading::proofs::Reading::wholes, crate::proofs::Applying::applying))]
fn apply_each<W: Write>(out: &mut W, store: &mut [u8], tape: &[u8], from: usize) -> io::Result<()>
    requires opened { AtOpening tape.now store.old }
    requires from { from ≡ opening_length tape.now }
    ensures { IfOk result (λ _. LinesWritten tape.now store.new (W.contents out.old) (W.contents out.new)) }
{
    let mut at = from;
    let mut line: u64 = 1;
    loop {
        match next_at(tape, at) {
            Next::Whole(_, next) => {
                apply_one(out, store, &tape[at..next], line)?;
                at = next;
                line = line.wrapping_add(1);
            }
            Next::Unknown(_) => return apply_one(out, store, &tape[at..], line),
            Next::Cut(_) => return apply_one(out, store, &tape[at..], line),
            Next::End => return Ok(()),
        }
    }
}

struct OneByOne;

impl ReplayExtent for OneByOne {
    // Each answer is printed before the next command is run, so that any number of them has room.
    fn replay_extent<W: Write>(out: &mut W, tape: &[u8]) -> io::Result<Extent>
        ensures text { IfOk result (λ how. Appends (W.contents out.old) (W.contents out.new) (extent_text how tape.now)) }
        ensures whole { IfOk result (λ how. how ≡ Extent.Whole) }
    {
        let mut store = [0u8; STORE_BYTES];
        let Ok(answer) = open(&mut store, tape) else {
            return Err(io::Error::from(ErrorKind::InvalidData));
        };
        if !answer.is_applied() {
            print_line(out, 0, answer)?;
            dump_store(out, &store)?;
            return Ok(Extent::Whole);
        }
        apply_each(out, &mut store, tape, opening_bytes(tape))?;
        dump_store(out, &store)?;
        Ok(Extent::Whole)
    }
}

fn main(rt: HostRuntime) -> ExitCode {
    match replay_extents::<OneByOne, _, _>(&mut rt.stdin(), &mut rt.stdout()) {
        Ok(()) => ExitCode::SUCCESS,
        Err(_) => ExitCode::FAILURE,
    }
}
