// Reason 2 does not apply: the texts of a command, each within its bytes and its room, with padding zero.
ghost use Rattle.std.specs.Prelude.{◌≡◌};
ghost use Rattle.metadata.specs.Texts.{endpoint_admitted, name_admitted, label_admitted, key_admitted, optional_admitted};

use metadata::{Key, Label, Name, OptionalLabel};

// "endpoint bytes outside 0x21 to 0x7E, other text outside 0x20 to 0x7E". "Keys take all byte values".
const ENDPOINT_LOW: u8 = 0x21;

const TEXT_LOW: u8 = 0x20;

const TEXT_HIGH: u8 = 0x7E;

const BYTE_LOW: u8 = 0x00;

const BYTE_HIGH: u8 = 0xFF;

// An endpoint and the cluster's name have a byte at least, the others may be empty.
const NAME_LEAST: u8 = 1;

const LEAST: u8 = 0;

// One call each: document 01 has a name and bounds for each kind of text.
pub fn endpoint_admitted(t: &Name) -> bool
    ensures { result ≡ endpoint_admitted t.now }
{
    t.is_admitted(NAME_LEAST, ENDPOINT_LOW, TEXT_HIGH)
}

pub fn name_admitted(t: &Name) -> bool
    ensures { result ≡ name_admitted t.now }
{
    t.is_admitted(NAME_LEAST, TEXT_LOW, TEXT_HIGH)
}

pub fn label_admitted(t: &Label) -> bool
    ensures { result ≡ label_admitted t.now }
{
    t.is_admitted(LEAST, TEXT_LOW, TEXT_HIGH)
}

pub fn key_admitted(t: &Key) -> bool
    ensures { result ≡ key_admitted t.now }
{
    t.is_admitted(LEAST, BYTE_LOW, BYTE_HIGH)
}

pub fn optional_admitted(t: &OptionalLabel) -> bool
    ensures { result ≡ optional_admitted t.now }
{
    t.is_admitted(LEAST, TEXT_LOW, TEXT_HIGH)
}
