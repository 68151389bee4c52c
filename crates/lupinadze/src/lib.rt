#![tactic(auto)]

// The static library, for C and Rust to link (bindings/): a whole tape in memory, a store that lives between calls, questions to it and its dump.
// Names begin with the crate's, since a linked name is the whole program's.
ghost use Rattle.layout.specs.Layout.{sound};
ghost use Rattle.layout.specs.Places.{store_length};
ghost use Rattle.lupinadze.specs.Linked.{run_result};
ghost use Rattle.std.specs.Prelude.{◌≡◌, cond, length};
ghost use Rattle.tape.specs.Tape.{outcome, ran_out};

mod asked;
mod calls;
mod dumped;
mod given;

pub use asked::{
    lupinadze_initial_placement, lupinadze_is_complete, lupinadze_next_replica_id, lupinadze_node,
    lupinadze_overlap_start, lupinadze_placement, lupinadze_retirement, lupinadze_tablet,
};
pub use calls::{lupinadze_apply, lupinadze_open};
pub use dumped::{LUPINADZE_LINE_BYTES, lupinadze_dump};
use layout::STORE_BYTES;

// ---- the codes, given in place of a count

// A list is too short: nothing was run, and nothing is written.
pub const LUPINADZE_SHORT: u64 = 18446744073709551615;

// Memory of another length, or a store that is not sound: nothing is written.
pub const LUPINADZE_NOT_A_STORE: u64 = 18446744073709551614;

// There is no such row, line or number: nothing is written.
pub const LUPINADZE_NONE: u64 = 18446744073709551613;

// ---- a whole tape in memory

// How many answers a tape gets. The list for them needs four times as many numbers.
#[unsafe(no_mangle)]
pub extern "C" fn lupinadze_answers(tape: &[u8]) -> u64
    ensures { result ≡ length (outcome tape.now) }
{
    let mut store = [0u8; STORE_BYTES];
    // no answer has room in one number, so that the run counts and stops
    let mut no_room: [u64; 1] = [0; 1];
    let counted = tape::run(tape, &mut store, &mut no_room);
    counted.lines as u64
}

// Runs a tape: four numbers for each answer go to the lent list, and how many answers there are is handed back. Too short a list: no number is written. What the list has then is said as `tape::run` says it.
#[tactic(auto, unfolding(crate::specs::Linked::run_result))]
#[unsafe(no_mangle)]
pub extern "C" fn lupinadze_run(tape: &[u8], out: &mut [u64]) -> u64
    ensures result { result ≡ run_result tape.now (length out.old) }
    ensures out { out.new ≡ ran_out tape.now out.old }
{
    let mut store = [0u8; STORE_BYTES];
    let done = tape::run(tape, &mut store, out);
    if done.short {
        return LUPINADZE_SHORT;
    }
    done.lines as u64
}

// ---- a store

// How long the memory of a store is.
#[unsafe(no_mangle)]
pub extern "C" fn lupinadze_store_bytes() -> u64
    ensures { result ≡ store_length }
{
    STORE_BYTES as u64
}

// 1 where the memory is a sound store, else 0.
#[unsafe(no_mangle)]
pub extern "C" fn lupinadze_is_sound(store: &[u8]) -> u64
    ensures { result ≡ cond (sound store.now) 1 0 }
{
    u64::from(soundness::sound(store))
}
