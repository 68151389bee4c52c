#![tactic(auto)]

// The command tape: the run over a whole tape.
ghost use Rattle.answer_numbers.specs.Numbers.{written};
ghost use Rattle.metadata.specs.Answers.{reported};
ghost use Rattle.std.specs.Prelude.{◌≡◌, false, cond, ltb, length};
ghost use Rattle.tape.specs.Tape.{RunOf, ran_out, TapeClaims};

use answer_numbers::write_answer;
use layout::STORE_BYTES;
use metadata::Answer;
use reading::{body_at, count_lines, open_tape};
use tape_commands::run_commands;

// A run of a whole tape: whether the opening was accepted, whether the list was too short for the answers, and how many there are.
// No field stands for another: all three have their meaning in every run.
#[derive(Clone, Copy)]
pub struct Ran {
    pub opened: bool,
    pub short: bool,
    pub lines: usize,
}

// A refused opening is the one answer.
fn run_refused(opening: Answer, out: &mut [u64]) -> Ran
    ensures ran { result ≡ record { opened = false; short = ltb (length out.old) 4; lines = 1 } }
    ensures out { out.new ≡ cond (ltb (length out.old) 4) out.old (written out.old 0 (reported opening)) }
{
    let short = out.len() < 4;
    if !short {
        write_answer(out, 0, opening);
    }
    Ran {
        opened: false,
        short,
        lines: 1,
    }
}

// A whole tape in memory: four numbers for each answer go to the lent list, and the rows that are left to the lent block, whatever it held. Too short a list: no command is run, and no number is written.
// The contract of the run, `RunOf` and `ran_out`, stands here and at `run`, which adds the history.
#[tactic(auto, using(crate::proofs::Whole::runs))]
fn run_whole(tape: &[u8], store: &mut [u8; STORE_BYTES], out: &mut [u64]) -> Ran
    ensures ran { RunOf tape.now (length out.old) result store.new }
    ensures out { out.new ≡ ran_out tape.now out.old }
{
    let opening = open_tape(tape, store);
    if !opening.is_applied() {
        return run_refused(opening, out);
    }
    let at = body_at(tape);
    let lines = count_lines(tape, at);
    let short = out.len() / 4 < lines;
    if !short {
        run_commands(store, tape, at, out);
    }
    Ran {
        opened: true,
        short,
        lines,
    }
}

// The same, with demand 3: where the opening is accepted and the list is long enough, the block's rows are what the history says of the tape's commands and their answers.
pub fn run(tape: &[u8], store: &mut [u8; STORE_BYTES], out: &mut [u64]) -> Ran
    ensures ran { RunOf tape.now (length out.old) result store.new }
    ensures out { out.new ≡ ran_out tape.now out.old }
    ensures history { TapeClaims tape.now result store.new }
{
    run_whole(tape, store, out)
}
