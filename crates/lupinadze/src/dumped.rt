// The final tables and marks of a store that is lent, line by line.
ghost use Rattle.dump.specs.Dump.{dump_lines};
ghost use Rattle.layout.specs.Layout.{store_of, sound};
ghost use Rattle.lupinadze.specs.Asked.{line_said};
ghost use Rattle.lupinadze.specs.Given.{Given};
ghost use Rattle.std.specs.Prelude.{◌≡◌, ◌≤◌, true, [], length, get_or};

use crate::given::give_all;
use crate::{LUPINADZE_NONE, LUPINADZE_NOT_A_STORE};
use layout::STORE_BYTES;
use row_lines::Page;

// No line has more bytes.
pub const LUPINADZE_LINE_BYTES: u64 = 811;

// The line under a number, counted from 0, with its line feed. Behind the last there is none.
#[tactic(auto, using(questions::proofs::Asked::sound_length))]
#[unsafe(no_mangle)]
pub extern "C" fn lupinadze_dump(store: &[u8], line: u64, out: &mut [u8]) -> u64
    ensures within { sound store.now ≡ true → length (get_or (dump_lines (store_of store.now)) line []) ≤ LUPINADZE_LINE_BYTES }
    ensures given { Given (sound store.now) (line_said (dump_lines (store_of store.now)) line) out.old result out.new }
{
    if !soundness::sound(store) {
        return LUPINADZE_NOT_A_STORE;
    }
    let Ok(block) = <&[u8; STORE_BYTES]>::try_from(store) else {
        return LUPINADZE_NOT_A_STORE;
    };
    let mut page = Page::new();
    if !dump::put_line_at(&mut page, block, line as usize) {
        return LUPINADZE_NONE;
    }
    give_all(page.as_bytes(), out)
}
