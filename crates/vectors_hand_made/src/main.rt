#![tactic(auto)]

// Stores made by hand, through `store::apply` and `store::enter`: a block that a tape leaves, with bytes changed, or cut, and commands to it. Standard input has for each case five numbers, eight bytes
// each, little-endian: how many bytes its name, its tape, its patches and its commands have, and how long the block is; then those four. Without a tape a case begins as the one
// before it did, the first with zeros. A patch is a place, eight bytes, a count, one byte, and as many bytes. The expected output is the second reading's (oracle/README.md).
use answer_numbers::write_answer;
use arrayvec::ArrayString;
use decode::tablet_at;
use encode::TABLET_BYTES;
use layout::STORE_BYTES;
use lines::put_field;
use metadata::{Command, NodeId, RaftGroupId, ReplicaId, TableId, TabletId};
use printing::emit;
use reading::{Next, next_at, read_command};
use std::io;
use std::io::Read;
use std::process::ExitCode;
use std::rt::{Stdin, Stdout};
use store::{apply, enter, open, opening_bytes};
use stored_tapes::print_answer;

// Bytes of a name, a tape, patches and commands, each more than any case has.
const NAME_ROOM: usize = 256;

const TAPE_ROOM: usize = 65536;

const PATCH_ROOM: usize = 1024;

const COMMAND_ROOM: usize = 4096;

// A block may be a byte too long.
const BLOCK_ROOM: usize = STORE_BYTES + 1;

// A space, a number, a line feed.
const NUMBER_ROOM: usize = 32;

// Four numbers for each answer.
const LIST_ROOM: usize = 4096;

// What the next case has.
#[derive(Drop)]
struct Sizes {
    name: usize,
    tape: usize,
    patches: usize,
    commands: usize,
    block: usize,
}

// The next eight bytes as a number; none past the end.
fn next_number(input: &mut Stdin) -> Option<usize> {
    let mut head = [0u8; 8];
    input.read_exact(&mut head).ok()?;
    Some(usize::from_le_bytes(head))
}

fn next_sizes(input: &mut Stdin) -> Option<Sizes> {
    Some(Sizes {
        name: next_number(input)?,
        tape: next_number(input)?,
        patches: next_number(input)?,
        commands: next_number(input)?,
        block: next_number(input)?,
    })
}

// The next bytes, at most as many as there is room for.
fn read_into<'a>(input: &mut Stdin, room: &'a mut [u8], size: usize) -> io::Result<&'a [u8]> {
    let most = room.len();
    let kept = &mut room[..size.min(most)];
    input.read_exact(kept)?;
    Ok(kept)
}

// The block that a tape leaves, all of whose commands fit in the list.
fn run_tape(block: &mut [u8], tape: &[u8]) {
    let mut list = [0u64; LIST_ROOM];
    let commands = tape.get(opening_bytes(tape)..).unwrap_or_default();
    let _ = open(block, tape);
    let _ = apply(block, commands, &mut list);
}

// The place and the bytes of the first patch, and the patches behind it.
fn next_patch(patches: &[u8]) -> Option<(usize, &[u8], &[u8])> {
    let place: [u8; 8] = patches.get(..8)?.try_into().ok()?;
    let end = 9 + usize::from(*patches.get(8)?);
    Some((
        usize::from_le_bytes(place),
        patches.get(9..end)?,
        patches.get(end..)?,
    ))
}

fn put(block: &mut [u8], place: usize, bytes: &[u8]) {
    for (at, byte) in (place..usize::MAX).zip(bytes) {
        if let Some(old) = block.get_mut(at) {
            *old = *byte;
        }
    }
}

// Each patch has nine bytes at least, so that there are no more than bytes.
fn patch(block: &mut [u8], patches: &[u8]) {
    let mut rest = patches;
    for _ in 0..patches.len() {
        let Some((place, bytes, behind)) = next_patch(rest) else {
            return;
        };
        put(block, place, bytes);
        rest = behind;
    }
}

// How many of the questions are answered: of a store that is not sound, none.
fn count_answered(block: &[u8]) -> usize {
    let other = tablet_at(&[0u8; TABLET_BYTES], 0);
    let answered = [
        questions::next_replica_id(block).is_ok(),
        questions::is_complete(block, TableId(10)).is_ok(),
        questions::initial_placement(block).is_ok(),
        questions::node(block, NodeId(10)).is_ok(),
        questions::tablet(block, TabletId(10)).is_ok(),
        questions::desired_placement(block, TabletId(10)).is_ok(),
        questions::retired_replica(block, RaftGroupId(110), ReplicaId(51)).is_ok(),
        questions::overlap_start(block, TabletId(10), &other).is_ok(),
    ];
    answered.iter().filter(|is| **is).count()
}

// A word and a number, on a line.
fn print_number(out: &mut Stdout, word: &str, number: usize) -> io::Result<()> {
    let mut text = ArrayString::<NUMBER_ROOM>::new();
    put_field(&mut text, number as u64);
    text.push('\n');
    emit(out, word.as_bytes())?;
    emit(out, text.as_bytes())
}

// The first place that is not as it was, and the last.
fn print_changed(out: &mut Stdout, before: &[u8], after: &[u8]) -> io::Result<()> {
    let mut pairs = before.iter().zip(after);
    let Some(first) = pairs.position(|(old, new)| old != new) else {
        return emit(out, b"no byte changed\n");
    };
    let mut last = first;
    for (at, (old, new)) in (0..usize::MAX).zip(before.iter().zip(after)) {
        if old != new {
            last = at;
        }
    }
    print_number(out, "first byte changed", first)?;
    print_number(out, "last byte changed", last)
}

// The commands as records, one a call of `enter`: whether each is answered by the next four numbers of the list. What is no whole command ends them.
#[tactic(auto, using(reading::proofs::Reading::wholes))]
fn enters_alike(block: &mut [u8], commands: &[u8], list: &[u64]) -> bool {
    let mut at = 0;
    let mut command = Command::Picking;
    for numbers in list.chunks_exact(4) {
        let Next::Whole(b, next) = next_at(commands, at) else {
            return true;
        };
        read_command(b, commands, at + 1, &mut command);
        let answer = enter(block, &command);
        let mut four = [0u64; 4];
        write_answer(&mut four, 0, answer);
        if numbers != four.as_slice() {
            return false;
        }
        at = next;
    }
    true
}

// The answers to the commands, whether `enter` gives the same, and what they change.
fn try_commands(out: &mut Stdout, block: &mut [u8], commands: &[u8]) -> io::Result<()> {
    let mut kept = [0u8; BLOCK_ROOM];
    put(&mut kept, 0, block);
    let mut other = kept;
    let entered = &mut other[..block.len().min(BLOCK_ROOM)];
    let mut list = [0u64; LIST_ROOM];
    let Ok(count) = apply(block, commands, &mut list) else {
        return emit(out, b"too many commands\n");
    };
    for (numbers, line) in list.chunks_exact(4).take(count).zip(1..u64::MAX) {
        print_answer(out, numbers, line)?;
    }
    if enters_alike(entered, commands, &list) && *entered == *block {
        emit(out, b"the same by enter\n")?;
    }
    print_changed(out, &kept, block)
}

// The case's block is made from the base, which its tape makes anew, and tried.
fn try_case(input: &mut Stdin, out: &mut Stdout, base: &mut [u8], sizes: &Sizes) -> io::Result<()> {
    let mut names = [0u8; NAME_ROOM];
    let name = read_into(input, &mut names, sizes.name)?;
    let mut tapes = [0u8; TAPE_ROOM];
    let tape = read_into(input, &mut tapes, sizes.tape)?;
    let mut lists = [0u8; PATCH_ROOM];
    let patches = read_into(input, &mut lists, sizes.patches)?;
    let mut rooms = [0u8; COMMAND_ROOM];
    let commands = read_into(input, &mut rooms, sizes.commands)?;
    if !tape.is_empty() {
        run_tape(base, tape);
    }
    let mut room = [0u8; BLOCK_ROOM];
    put(&mut room, 0, base);
    patch(&mut room, patches);
    let block = &mut room[..sizes.block.min(BLOCK_ROOM)];
    emit(out, b"case ")?;
    emit(out, name)?;
    emit(out, b"\n")?;
    print_number(out, "questions answered", count_answered(block))?;
    try_commands(out, block, commands)
}

// The loop has more turns than any input uses up: a proved loop has to end.
fn try_all(input: &mut Stdin, out: &mut Stdout) -> io::Result<()> {
    let mut base = [0u8; STORE_BYTES];
    for _ in 0..u64::MAX {
        let Some(sizes) = next_sizes(input) else {
            return Ok(());
        };
        try_case(input, out, &mut base, &sizes)?;
    }
    Ok(())
}

fn main(rt: HostRuntime) -> ExitCode {
    match try_all(&mut rt.stdin(), &mut rt.stdout()) {
        Ok(()) => ExitCode::SUCCESS,
        Err(_) => ExitCode::FAILURE,
    }
}
