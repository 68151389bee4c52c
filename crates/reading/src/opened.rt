// The opening at the start of a tape.
ghost use Rattle.layout.specs.Layout.{Opened};
ghost use Rattle.layout.specs.Places.{store_length};
ghost use Rattle.metadata.specs.Opening.{refused_rows};
ghost use Rattle.metadata.specs.declared.Answer.TheVariants.{InvalidCommand};
ghost use Rattle.reading.specs.Reader.{cut_opening, open_tape};
ghost use Rattle.std.specs.Prelude.{◌≡◌, length};

use crate::{HEAD, body_at};
use admission::Reason;
use decode::tables_at;
use metadata::{Answer, TABLE_ROOM, TapeFault};
use numbers::number8;
use opening::refuse;

fn cut_opening(block: &mut [u8]) -> Answer
    requires { length block.old ≡ store_length }
    ensures { Opened cut_opening result block.new }
{
    refuse(block);
    Answer::BadTape(TapeFault::Cut, 0)
}

// More tables than there is room for are refused by the head alone.
fn over_the_room(block: &mut [u8]) -> Answer
    requires { length block.old ≡ store_length }
    ensures { Opened (record { answer = InvalidCommand 10; rows = refused_rows }) result block.new }
{
    refuse(block);
    Answer::from(Reason::Opening)
}

#[tactic(auto, unfolding(crate::specs::Reader::open_tape))]
pub fn open_tape(tape: &[u8], block: &mut [u8]) -> Answer
    requires { length block.old ≡ store_length }
    ensures { Opened (open_tape tape.now) result block.new }
{
    if tape.len() < HEAD {
        return cut_opening(block);
    }
    let count = usize::from(tape[0]);
    if TABLE_ROOM < count {
        return over_the_room(block);
    }
    if tape.len() < body_at(tape) {
        return cut_opening(block);
    }
    let tables = tables_at(tape, HEAD, count);
    let group_mark = number8(tape, 1);
    opening::open(block, &tables[..count], group_mark)
}
