// The pieces of a line: numbers and texts, each with a space before it. Each says its own room, and is no `Display` (lib.rt says why).
ghost use Rattle.std.specs.Prelude.{◌≡◌, ◌+◌, ◌*◌, ◌≤◌, ◌<◌, ◌++◌};
ghost use Rattle.arrayvec.specs.ArrayString.{array_string_len};
ghost use Rattle.row_lines.specs.Pieces.{three_numbers, hex_digit, hex_pair, text_field, optional_field};

use crate::{DUMP_LINE_ROOM, Page, Printed, put_each};
use lines::put_field;
use text::{Optional, Text};

pub(crate) fn put_three(out: &mut Page, a: u64, b: u64, c: u64)
    requires { array_string_len out.old + 63 ≤ DUMP_LINE_ROOM }
    ensures text { out.new.bytes ≡ out.old.bytes ++ three_numbers a b c }
    ensures short { array_string_len out.new ≤ array_string_len out.old + 63 }
{
    put_field(out, a);
    put_field(out, b);
    put_field(out, c);
}

fn digit(d: u8) -> char
    requires { d < 16 }
    ensures value { result ≡ hex_digit d }
    ensures ascii { result < 128 }
{
    if d < 10 {
        char::from(b'0' + d)
    } else {
        char::from(b'a' - 10 + d)
    }
}

// A byte of a text, in hexadecimal.
impl Printed for u8 {
    ghost room = { 2 };

    ghost text = { hex_pair };

    fn put(&self, out: &mut Page) {
        out.push(digit(*self / 16));
        out.push(digit(*self % 16));
    }
}

impl<const W: usize> Printed for Text<W> {
    ghost room = { 2 + 2 * W };

    ghost text = { text_field };

    #[tactic(auto, unfolding(crate::specs::Pieces::text_field))]
    fn put(&self, out: &mut Page) {
        out.push_str(" =");
        put_each(out, self.text());
    }
}

impl<const W: usize> Printed for Optional<W> {
    ghost room = { 2 + 2 * W };

    ghost text = { optional_field };

    #[tactic(auto, unfolding(crate::specs::Pieces::optional_field))]
    fn put(&self, out: &mut Page) {
        if self.present {
            self.text.put(out);
        } else {
            out.push_str(" -");
        }
    }
}
