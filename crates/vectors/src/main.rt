#![tactic(auto)]

// Stored tapes through the library's run of a whole tape.
ghost use Rattle.std.specs.Io.KnownBytes.{Appends};
ghost use Rattle.std.specs.Prelude.{◌≡◌, ◌*◌, ◌<◌, ◌≤◌, length, IfOk};
ghost use Rattle.stored_tapes.specs.Replays.{extent_text};
ghost use Rattle.tape.specs.Tape.{outcome};
ghost use Rattle.vectors.specs.Answers.{answers_text};

use dump::dump_store;
use layout::STORE_BYTES;
use printing::emit;
use std::io;
use std::io::Write;
use std::process::ExitCode;
use stored_tapes::{Extent, ReplayExtent, print_answer, replay_extents};

// Four for each answer.
const NUMBER_ROOM: usize = 4096;

// The lines of the answers, of which there are `count` in the lent numbers; the first is line 0 where the opening was refused.
// The count stands beside the list, since the list has a fixed room and the run says how many answers it wrote there.
#[tactic(auto, using(crate::proofs::Printing::printing))]
fn print_answers<W: Write>(out: &mut W, numbers: &[u64], count: usize, first: u64) -> io::Result<()>
    requires { 4 * count ≤ length numbers.now }
    ensures { IfOk result (λ _. Appends (W.contents out.old) (W.contents out.new) (answers_text first count numbers.now)) }
{
    let mut rest = numbers;
    let mut left = count;
    let mut line = first;
    while 0 < left {
        let (answer, behind) = rest.split_at(4);
        print_answer(out, answer, line)?;
        rest = behind;
        left -= 1;
        line = line.wrapping_add(1);
    }
    Ok(())
}

struct WholeTape;

impl ReplayExtent for WholeTape {
    // A tape is short only where its answers have more numbers than there is room for.
    fn replay_extent<W: Write>(out: &mut W, tape: &[u8]) -> io::Result<Extent>
        ensures text { IfOk result (λ how. Appends (W.contents out.old) (W.contents out.new) (extent_text how tape.now)) }
        ensures room { IfOk result (λ how. how ≡ Extent.Short → NUMBER_ROOM < 4 * length (outcome tape.now)) }
    {
        let mut store = [0u8; STORE_BYTES];
        let mut numbers = [0u64; NUMBER_ROOM];
        let ran = tape::run(tape, &mut store, &mut numbers);
        if ran.short {
            emit(out, b"too many lines\n")?;
            return Ok(Extent::Short);
        }
        print_answers(out, &numbers, ran.lines, u64::from(ran.opened))?;
        dump_store(out, &store)?;
        Ok(Extent::Whole)
    }
}

fn main(rt: HostRuntime) -> ExitCode {
    match replay_extents::<WholeTape, _, _>(&mut rt.stdin(), &mut rt.stdout()) {
        Ok(()) => ExitCode::SUCCESS,
        Err(_) => ExitCode::FAILURE,
    }
}
