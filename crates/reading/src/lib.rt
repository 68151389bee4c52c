#![tactic(auto)]

// What a tape holds: its opening, and what stands at each place behind it.
ghost use Rattle.reading.specs.Reader.{is_command, size_of, next_at, command_at, read_from, lines, body_at};
ghost use Rattle.std.specs.Prelude.{◌≡◌, ◌+◌, ◌≤◌, true, length};

use decode::{node_at, placement_at, retirement_at, tablet_at, text_at};
use metadata::{Command, NodeId};
use numbers::number8;

mod opened;

pub use opened::open_tape;

// The opening is a table count and the group mark, and then a row for each table.
pub const HEAD: usize = 9;

const TABLE: usize = 12;

// What stands at a place of a tape, with the byte that is there, since answer 40 repeats it: nothing more, an unknown byte, a command that is cut short, or a whole command with its byte and the place of the next.
#[derive(Clone, Copy)]
pub enum Next {
    End,
    Unknown(u8),
    Cut(u8),
    Whole(u8, usize),
}

// A command's byte stays a byte until its row is read: `Command` has no value without one.
pub fn is_command(b: u8) -> bool
    ensures { result ≡ is_command b }
{
    (1..=7).contains(&b)
}

// How many operand bytes a command has.
#[tactic(auto, unfolding(crate::specs::Reader::size_of))]
pub fn size_of(b: u8) -> usize
    ensures { result ≡ size_of b }
{
    match b {
        1 => 49,
        2 => 305,
        3 => 9,
        4 => 107,
        5 => 234,
        6 => 48,
        _ => 0,
    }
}

// The command with this byte, by the operands at its place, written where its caller holds it.
// It is lent and not returned: the compiler puts a returned value of seven forms together from the pieces of all seven, which takes longer than some commands.
#[tactic(auto, unfolding(crate::specs::Reader::size_of, crate::specs::Reader::command_at))]
pub fn read_command(b: u8, tape: &[u8], at: usize, command: &mut Command)
    requires { (is_command b ≡ true) × (at + size_of b ≤ length tape.now) }
    ensures { command.new ≡ command_at b tape.now at }
{
    match b {
        1 => *command = Command::Naming(text_at(tape, at)),
        2 => *command = Command::Registering(node_at(tape, at)),
        3 => *command = Command::Lifecycle(NodeId(number8(tape, at)), tape[at + 8]),
        4 => *command = Command::Tablet(tablet_at(tape, at)),
        5 => *command = Command::Placement(placement_at(tape, at)),
        6 => *command = Command::Retirement(retirement_at(tape, at)),
        _ => *command = Command::Picking,
    }
}

#[tactic(auto, unfolding(crate::specs::Reader::next_at))]
pub fn next_at(tape: &[u8], at: usize) -> Next
    ensures { result ≡ next_at tape.now at }
{
    let Some(&b) = tape.get(at) else {
        return Next::End;
    };
    if !is_command(b) {
        return Next::Unknown(b);
    }
    let size = size_of(b);
    if tape.len() - (at + 1) < size {
        return Next::Cut(b);
    }
    Next::Whole(b, at + 1 + size)
}

// How many lines the commands from a place on print.
// The walk over a tape stands here, in `tape_commands` and in `chunks`: what is done at a command differs, and one walk over closures would say of each turn what the loop is.
#[tactic(auto, using(crate::proofs::Reading::wholes, crate::proofs::Reading::stops_inside, crate::proofs::Reading::count_start))]
pub fn count_lines(tape: &[u8], at: usize) -> usize
    ensures { result ≡ lines (read_from tape.now at) }
{
    // The lines so far. The loop goes over places of the tape and no list, so `enumerate` has nothing to number.
    let mut n = 0;
    let mut place = at;
    loop {
        match next_at(tape, place) {
            Next::Whole(_, next) => {
                place = next;
                n += 1;
            }
            Next::Unknown(_) | Next::Cut(_) => return n + 1,
            Next::End => return n,
        }
    }
}

// Where the commands begin.
pub fn body_at(tape: &[u8]) -> usize
    ensures { result ≡ body_at tape.now }
{
    match tape.first() {
        Some(count) => HEAD + TABLE * usize::from(*count),
        None => HEAD,
    }
}
