// The answers to commands on memory that is no sound store.
ghost use Rattle.reading.specs.Reader.{read_from, lines};
ghost use Rattle.std.specs.Prelude.{◌≡◌, ◌*◌, ◌≤◌, length};
ghost use Rattle.store.specs.Slices.{refusals, answered_into};

use admission::Reason;
use answer_numbers::write_answer;
use metadata::{Answer, TapeFault};
use reading::{Next, next_at};

// Inner: `apply` shows that there is room for every answer. A walk over the tape as `tape_commands::run_commands` has it, no command run.
#[tactic(auto, using(crate::proofs::Refusing::refusing))]
pub fn refuse_commands(commands: &[u8], out: &mut [u64])
    requires { 4 * lines (read_from commands.now 0) ≤ length out.old }
    ensures { out.new ≡ answered_into (refusals (read_from commands.now 0)) out.old }
{
    let mut at: usize = 0;
    // Where the next answer is written. The loop goes over places of the tape and no list, so `enumerate` has nothing to number.
    let mut place: usize = 0;
    loop {
        match next_at(commands, at) {
            Next::Whole(_, next) => {
                write_answer(out, place, Answer::from(Reason::UnsoundStore));
                at = next;
                place += 4;
            }
            Next::Unknown(b) => {
                write_answer(out, place, Answer::BadTape(TapeFault::Unknown, b));
                return;
            }
            Next::Cut(b) => {
                write_answer(out, place, Answer::BadTape(TapeFault::Cut, b));
                return;
            }
            Next::End => return,
        }
    }
}
