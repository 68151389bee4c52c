#![tactic(auto)]

// Numbers and bytes at a place of a lent slice, as the tape has them.
ghost use Rattle.laws.specs.Bytes.{number_at, field_at, in_eight};
ghost use Rattle.std.specs.Prelude.{◌≡◌, ◌+◌, ◌≤◌, length};

// The N bytes from a place on.
pub fn array_at<const N: usize>(s: &[u8], at: usize) -> [u8; N]
    requires { at + N ≤ length s.now }
    ensures { result ≡ field_at N s.now at }
{
    s[at..at + N].try_into().unwrap()
}

// Four bytes, least first.
// Who reads at a place has tested that the bytes are there (`requires`): `TryFrom` would test it again for each number, text and record.
#[tactic(auto, using(crate::proofs::Numbers::four))]
pub fn number4(s: &[u8], at: usize) -> u32
    requires { at + 4 ≤ length s.now }
    ensures { result ≡ number_at 4 s.now at }
{
    u32::from_le_bytes(array_at(s, at))
}

// Eight bytes, least first.
#[tactic(auto, using(crate::proofs::Numbers::eight))]
pub fn number8(s: &[u8], at: usize) -> u64
    requires { at + 8 ≤ length s.now }
    ensures { result ≡ number_at 8 s.now at }
{
    u64::from_le_bytes(array_at(s, at))
}

// A number written into eight bytes, least first.
#[tactic(auto, unfolding(laws::specs::Bytes::in_eight))]
pub fn put8(bytes: &mut [u8], n: u64)
    requires { length bytes.old ≡ 8 }
    ensures { bytes.new ≡ in_eight n }
{
    bytes.copy_from_slice(&n.to_le_bytes());
}
