// What is written for the caller.
ghost use Rattle.lupinadze.specs.Given.{said, given_count, given_list};
ghost use Rattle.std.specs.Prelude.{◌≡◌, Some};

use crate::LUPINADZE_SHORT;

// A count is handed back, and a list goes to the start of the one that is lent, where there is room.
pub fn give<T: Copy>(count: u64, list: &[T], out: &mut [T]) -> u64
    ensures count { result ≡ given_count (Some (record { count = count; list = list.now })) out.old }
    ensures list { out.new ≡ given_list (Some (record { count = count; list = list.now })) out.old }
{
    if out.len() < list.len() {
        return LUPINADZE_SHORT;
    }
    out[..list.len()].copy_from_slice(list);
    count
}

// A list, and how long it is.
pub fn give_all<T: Copy>(list: &[T], out: &mut [T]) -> u64
    ensures count { result ≡ given_count (Some (said list.now)) out.old }
    ensures list { out.new ≡ given_list (Some (said list.now)) out.old }
{
    give(list.len() as u64, list, out)
}

// The same of a key that stands in one of two places, byte by byte: one copy from there, which the compiler can't tell from the lent list, would ask the
// library's caller for a `memmove`.
pub fn give_key(key: &[u8], out: &mut [u8]) -> u64
    ensures count { result ≡ given_count (Some (said key.now)) out.old }
    ensures list { out.new ≡ given_list (Some (said key.now)) out.old }
{
    if out.len() < key.len() {
        return LUPINADZE_SHORT;
    }
    for i in 0..key.len() {
        out[i] = key[i];
    }
    key.len() as u64
}
