// A store that its caller lends from call to call: its opening, and commands. Memory of another length, or that is no sound store, is refused, and
// no byte of it changes.
ghost use Rattle.lupinadze.specs.Called.{OpenCall, code, ApplyCall};
ghost use Rattle.lupinadze.specs.Given.{short, not_a_store};
ghost use Rattle.layout.specs.Places.{store_length};
ghost use Rattle.std.specs.Prelude.{◌≡◌, cond, eqb, length};

use crate::{LUPINADZE_NOT_A_STORE, LUPINADZE_SHORT};
use answer_numbers::write_answer;
use layout::STORE_BYTES;
use store::{Fault, opening_bytes};

fn code(fault: Fault) -> u64
    ensures { result ≡ code fault }
{
    match fault {
        Fault::Short => LUPINADZE_SHORT,
        Fault::NotAStore => LUPINADZE_NOT_A_STORE,
    }
}

// Which code is given where the list has no room for the opening's answer: that the memory has another length is said first.
fn no_room(store: &[u8]) -> u64
    ensures { result ≡ cond (eqb (length store.now) store_length) short not_a_store }
{
    if store.len() == STORE_BYTES {
        return LUPINADZE_SHORT;
    }
    LUPINADZE_NOT_A_STORE
}

// The opening, as the tape has it: its answer's four numbers go to the lent list, and how many of the bytes it took is handed back, 0 where it is
// cut short. A refused one writes the store that it gives; one that is cut short changes no byte of the store.
#[unsafe(no_mangle)]
pub extern "C" fn lupinadze_open(store: &mut [u8], opening: &[u8], out: &mut [u64]) -> u64
    ensures { OpenCall store.old opening.now out.old result store.new out.new }
{
    if out.len() < 4 {
        return no_room(store);
    }
    match store::open(store, opening) {
        Ok(answer) => {
            write_answer(out, 0, answer);
            opening_bytes(opening) as u64
        }
        Err(fault) => code(fault),
    }
}

// The commands that stand in a list of bytes, as the tape has them: four numbers for each answer go to the lent list, and how many answers there
// are is handed back.
#[unsafe(no_mangle)]
pub extern "C" fn lupinadze_apply(store: &mut [u8], commands: &[u8], out: &mut [u64]) -> u64
    ensures { ApplyCall store.old commands.now out.old result store.new out.new }
{
    match store::apply(store, commands, out) {
        Ok(count) => count as u64,
        Err(fault) => code(fault),
    }
}
