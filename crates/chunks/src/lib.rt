#![tactic(auto)]

// A chunk of the tape: its whole commands run, a line for each answer in a lent slice.
ghost use Rattle.chunks.specs.Chunks.{ChunkRun};
ghost use Rattle.layout.specs.Layout.{sound};
ghost use Rattle.chunks.specs.declared.Pause.TheVariants.{Short};
ghost use Rattle.std.specs.Prelude.{◌≡◌, true};

use arrayvec::ArrayString;
use lines::{LINE_ROOM, put_line};
use metadata::{Answer, Command, TapeFault};
use reading::{Next, next_at, read_command};
use steps::step;

// Why a run ended: the output has no room for a line, the tape stops at a byte that is no command, or no whole command is left.
#[derive(Clone, Copy, PartialEq, Eq, Debug)]
pub enum Pause {
    Full,
    Stopped,
    Short,
}

// How far a chunk was run: the place of the next command, and its line.
#[derive(Clone, Copy)]
pub struct Chunk {
    pub at: usize,
    pub line: u64,
    pub pause: Pause,
}

// No whole command is left.
fn short(at: usize, line: u64) -> Chunk
    ensures { result ≡ record { at = at; line = line; pause = Short } }
{
    Chunk {
        at,
        line,
        pause: Pause::Short,
    }
}

// Inner: the program shows that the store is sound. Runs the whole commands of a chunk while a line has room:
// a walk as `reading::count_lines` has it, with more ways out.
#[tactic(auto, using(crate::proofs::ChunkRuns::running))]
pub fn run_chunk<const N: usize>(
    store: &mut [u8],
    chunk: &[u8],
    first: u64,
    out: &mut ArrayString<N>,
) -> Chunk
    requires { sound store.old ≡ true }
    ensures { ChunkRun N chunk.now store.old first out.old.bytes result store.new out.new.bytes }
{
    let mut at = 0;
    // The line of the next answer. The loop goes over places of the chunk and no list, so `enumerate` has nothing to number.
    let mut line = first;
    while at < chunk.len() {
        if out.remaining_capacity() < LINE_ROOM {
            return Chunk {
                at,
                line,
                pause: Pause::Full,
            };
        }
        match next_at(chunk, at) {
            Next::Whole(b, next) => {
                let mut command = Command::Picking;
                read_command(b, chunk, at + 1, &mut command);
                let answer = step(store, &command);
                put_line(out, line, &answer.report());
                line = line.wrapping_add(1);
                at = next;
            }
            Next::Unknown(b) => {
                put_line(out, line, &Answer::BadTape(TapeFault::Unknown, b).report());
                return Chunk {
                    at,
                    line,
                    pause: Pause::Stopped,
                };
            }
            Next::Cut(_) => return short(at, line),
            Next::End => return short(at, line),
        }
    }
    short(at, line)
}
