#![tactic(auto)]

// A store that its caller lends, as bytes. No entry point has a `requires`: memory of another length, or that is no sound store, is refused, and no byte of it changes.
ghost use Rattle.layout.specs.Layout.{Entered};
ghost use Rattle.std.specs.Prelude.{◌≡◌};
ghost use Rattle.store.specs.Slices.{opening_length, OpenOf, ApplyOf};

mod refused;

use admission::Reason;
use layout::STORE_BYTES;
use metadata::{Answer, Command, TABLE_ROOM, TapeFault};
use reading::{HEAD, body_at, count_lines, open_tape};
use refused::refuse_commands;
use tape_commands::run_commands;

// Why nothing was run: the list is too short for the answers, or the memory has another length than a store.
#[derive(Clone, Copy, PartialEq, Eq, Debug)]
pub enum Fault {
    Short,
    NotAStore,
}

// One command, as a record.
pub fn enter(block: &mut [u8], c: &Command) -> Answer
    ensures { Entered block.old c.now block.new result }
{
    if !soundness::sound(block) {
        return Answer::from(Reason::UnsoundStore);
    }
    steps::step(block, c)
}

// How many bytes an opening takes; 0 where it is cut short.
#[tactic(auto, unfolding(crate::specs::Slices::opening_length))]
pub fn opening_bytes(opening: &[u8]) -> usize
    ensures { result ≡ opening_length opening.now }
{
    if opening.len() < HEAD {
        return 0;
    }
    if TABLE_ROOM < usize::from(opening[0]) {
        return HEAD;
    }
    let body = body_at(opening);
    if opening.len() < body {
        return 0;
    }
    body
}

// The opening, as the tape has it. A refused one writes the store that it gives; one that is cut short writes nothing.
pub fn open(block: &mut [u8], opening: &[u8]) -> Result<Answer, Fault>
    ensures { OpenOf block.old opening.now result block.new }
{
    if block.len() != STORE_BYTES {
        return Err(Fault::NotAStore);
    }
    if opening_bytes(opening) == 0 {
        return Ok(Answer::BadTape(TapeFault::Cut, 0));
    }
    Ok(open_tape(opening, block))
}

// The commands that stand in a slice, as the tape has them, and four numbers for each answer; how many answers there are.
pub fn apply(block: &mut [u8], commands: &[u8], out: &mut [u64]) -> Result<usize, Fault>
    ensures { ApplyOf block.old commands.now out.old result block.new out.new }
{
    let count = count_lines(commands, 0);
    if out.len() / 4 < count {
        return Err(Fault::Short);
    }
    if soundness::sound(block) {
        run_commands(block, commands, 0, out);
    } else {
        refuse_commands(commands, out);
    }
    Ok(count)
}
