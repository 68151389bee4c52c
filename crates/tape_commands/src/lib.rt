#![tactic(auto)]

// The commands of a tape behind its opening, one after the other, their answers written as numbers.
ghost use Rattle.layout.specs.Layout.{sound};
ghost use Rattle.reading.specs.Reader.{read_from, lines};
ghost use Rattle.std.specs.Prelude.{◌≡◌, true, ◌*◌, ◌≤◌, length};
ghost use Rattle.tape_commands.specs.Commands.{Done};

use answer_numbers::write_answer;
use metadata::{Answer, Command, TapeFault};
use reading::{Next, next_at, read_command};
use steps::step;

// A walk over the tape as `reading::count_lines` has it, each command run and its answer written. Inner: `run` shows that the store is sound, and that there is room for every answer.
#[tactic(auto, using(crate::proofs::Loop::running))]
pub fn run_commands(store: &mut [u8], tape: &[u8], from: usize, out: &mut [u64])
    requires { (sound store.old ≡ true) × (4 * lines (read_from tape.now from) ≤ length out.old) }
    ensures { Done tape.now store.old from out.old store.new out.new }
{
    let mut at = from;
    // Where the next answer is written. The loop goes over places of the tape and no list, so `enumerate` has nothing to number.
    let mut place: usize = 0;
    loop {
        match next_at(tape, at) {
            Next::Whole(b, next) => {
                let mut command = Command::Picking;
                read_command(b, tape, at + 1, &mut command);
                let answer = step(store, &command);
                write_answer(out, place, answer);
                at = next;
                place += 4;
            }
            Next::Unknown(b) => {
                write_answer(out, place, Answer::BadTape(TapeFault::Unknown, b));
                return;
            }
            Next::Cut(b) => {
                write_answer(out, place, Answer::BadTape(TapeFault::Cut, b));
                return;
            }
            Next::End => return,
        }
    }
}
