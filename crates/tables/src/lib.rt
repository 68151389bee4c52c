#![tactic(auto)]

// Tables in bytes: the count of the rows in eight bytes, then the rows, each of one width, then zeros.
ghost use Rattle.laws.specs.Bytes.{is_zero};
ghost use Rattle.laws.specs.Lists.{every};
ghost use Rattle.laws.specs.Keyed.{Keyed, before, has, row};
ghost use Rattle.laws.specs.Through.{through};
ghost use Rattle.laws.specs.Rows.{find_index, rising};
ghost use Rattle.std.specs.Prelude.{◌≡◌, ◌&&◌, leb, ◌<◌, ◌≤◌, ◌+◌, ◌*◌, ◌++◌, Bool, List, false, true, length, map, ℕ, take, drop, MatchOption};
ghost use Rattle.std.specs.Option.{unwrap_or};
ghost use Rattle.std.specs.Simd.{first_chunks};
ghost use Rattle.tables.specs.Rows.{zero_word, zero_block, under, behind, rows_of, tidy, opened_for, Inserted, Replaced};

use numbers::{number8, put8};

// A kind of table: what its rows say, and the key by which they rise. No value of it is made.
pub trait Table {
    // What a row says.
    type Record: Copy;

    type Key: Copy;

    // The bytes of a row.
    type Bytes: Copy;

    ghost keyed: { Keyed Self.Record };

    ghost key_of: { Self.Key → keyed.Key };

    ghost record_of: { Self.Bytes → Self.Record };

    ghost blank: { Self.Record };

    fn read(row: &Self::Bytes) -> Self::Record
        ensures { result ≡ record_of row.now };

    fn key(x: &Self::Record) -> Self::Key
        ensures { key_of result ≡ keyed.key x.now };

    fn has_key(row: &Self::Bytes, key: Self::Key) -> bool
        ensures { result ≡ under keyed (key_of key) (record_of row.now) };

    // The row stands behind this key.
    fn is_behind(row: &Self::Bytes, key: Self::Key) -> bool
        ensures { result ≡ behind keyed (key_of key) (record_of row.now) };
}

// ---- searches among the rows in use, from the first on: they hold of any rows, rising or not

// Where the first row under this key stands.
pub fn find<T: Table>(rows: &[T::Bytes], key: T::Key) -> Option<usize>
    ensures { result ≡ find_index (under T.keyed (T.key_of key)) (map T.record_of rows.now) }
{
    rows.iter().position(|r| T::has_key(r, key))
}

// The first row under this key, where it stands.
pub fn stored<T: Table>(rows: &[T::Bytes], key: T::Key) -> Option<&T::Bytes>
    ensures { MatchOption result (has T.keyed (T.key_of key) (map T.record_of rows.now) ≡ false) (λ r. (has T.keyed (T.key_of key) (map T.record_of rows.now) ≡ true) × (row T.keyed T.blank (T.key_of key) (map T.record_of rows.now) ≡ T.record_of r.now)) }
{
    rows.iter().find(|r| T::has_key(*r, key))
}

// What the first row under this key says.
pub fn get<T: Table>(rows: &[T::Bytes], key: T::Key) -> Option<T::Record>
    ensures { MatchOption result (has T.keyed (T.key_of key) (map T.record_of rows.now) ≡ false) (λ r. (has T.keyed (T.key_of key) (map T.record_of rows.now) ≡ true) × (row T.keyed T.blank (T.key_of key) (map T.record_of rows.now) ≡ r)) }
{
    let row = stored::<T>(rows, key)?;
    Some(T::read(row))
}

pub fn contains<T: Table>(rows: &[T::Bytes], key: T::Key) -> bool
    ensures { result ≡ has T.keyed (T.key_of key) (map T.record_of rows.now) }
{
    rows.iter().any(|r| T::has_key(r, key))
}

// Where a row with this key is to go: in front of the first that stands behind it.
pub fn place<T: Table>(rows: &[T::Bytes], key: T::Key) -> usize
    ensures { result ≡ unwrap_or (find_index (behind T.keyed (T.key_of key)) (map T.record_of rows.now)) (length rows.now) }
{
    rows.iter()
        .position(|r| T::is_behind(r, key))
        .unwrap_or(rows.len())
}

// Each row lies before the next.
pub fn is_rising<T: Table>(rows: &[T::Bytes]) -> bool
    ensures { result ≡ rising (before T.keyed) (map T.record_of rows.now) }
{
    rows.is_sorted_by(|a, b| T::is_behind(b, T::key(&T::read(a))))
}

// No more rows than the room, and they rise.
pub fn is_table<T: Table>(rows: &[T::Bytes], room: usize) -> bool
    ensures { result ≡ (leb (length (map T.record_of rows.now)) room && rising (before T.keyed) (map T.record_of rows.now)) }
{
    rows.len() <= room && is_rising::<T>(rows)
}

// Whether every row passes; what the rows say is what the test tells.
pub fn all<T: Table, F: Fn(&T::Bytes) -> bool>(rows: &[T::Bytes], test: F) -> bool
    requires { F.IsAlwaysCallable test }
    ensures { (p : T.Record → Bool) → ((x r : _) → F.post test x r → r ≡ p (T.record_of x.now)) → result ≡ every p (map T.record_of rows.now) }
{
    rows.iter().all(|r| test(r))
}

// ---- the table itself

// The rows in use.
#[tactic(auto, using(crate::proofs::Pieces::used_rows))]
pub fn used<const W: usize>(table: &[u8], room: usize) -> &[[u8; W]]
    requires { (0 < W) × (length table.now ≡ 8 + room * W) }
    ensures { result.now ≡ rows_of W room table.now }
{
    let count = number8(table, 0) as usize;
    let (rows, _) = table[8..].as_chunks::<W>();
    &rows[..count.min(room)]
}

#[tactic(auto, using(crate::proofs::Pieces::row_put))]
// A row put at a place, in front of those that stood from there on, which move up. `count` are in use.
fn put_row(rows: &mut [u8], count: usize, at: usize, row: &[u8])
    requires { (at ≤ count) × ((count + 1) * length row.now ≤ length rows.old) }
    ensures { rows.new ≡ opened_for count at row.now rows.old }
{
    let width = row.len();
    let place = at * width;
    rows.copy_within(place..count * width, place + width);
    rows[place..place + width].copy_from_slice(row);
}

// A row more, at a place among those in use; without room the table stays as it was.

pub fn insert_row(table: &mut [u8], room: usize, at: usize, row: &[u8])
    requires long { length table.old ≡ 8 + room * length row.now }
    requires within { room < 65536 }
    requires among { at ≤ length (rows_of (length row.now) room table.old) }
    ensures { Inserted (length row.now) room at row.now table.old table.new }
{
    let count = number8(table, 0);
    if room as u64 <= count {
        return;
    }
    put_row(&mut table[8..], count as usize, at, row);
    put8(&mut table[..8], count + 1);
}

// Another row in the place of one in use.
#[tactic(auto, using(crate::proofs::Changed::within))]
pub fn replace_row(table: &mut [u8], room: usize, at: usize, row: &[u8])
    requires long { length table.old ≡ 8 + room * length row.now }
    requires among { at < length (rows_of (length row.now) room table.old) }
    ensures { Replaced (length row.now) room at row.now table.old table.new }
{
    let place = 8 + at * row.len();
    table[place..place + row.len()].copy_from_slice(row);
}

fn all_zero_words(words: &[[u8; 8]]) -> bool
    ensures { result ≡ every zero_word words.now }
{
    words.iter().all(|w| u64::from_le_bytes(*w) == 0)
}

fn all_zero_bytes(bytes: &[u8]) -> bool
    ensures { result ≡ every is_zero bytes.now }
{
    bytes.iter().all(|b| *b == 0)
}

// Eight bytes at a time; those that are left are in the last eight.
pub fn words_clear(bytes: &[u8]) -> bool
    ensures { result ≡ every is_zero bytes.now }
{
    let (words, _) = bytes.as_chunks::<8>();
    if words.is_empty() {
        return all_zero_bytes(bytes);
    }
    all_zero_words(words) && number8(bytes, bytes.len() - 8) == 0
}

// Four words, looked at together.
#[tactic(auto, unfolding(laws::specs::Tests::all_of))]
fn is_zero_block(block: &[u8; 32]) -> bool
    ensures { result ≡ zero_block block.now }
{
    (number8(block, 0) == 0)
        & (number8(block, 8) == 0)
        & (number8(block, 16) == 0)
        & (number8(block, 24) == 0)
}

fn all_zero_blocks(blocks: &[[u8; 32]]) -> bool
    ensures { result ≡ every zero_block blocks.now }
{
    blocks.iter().all(|b| is_zero_block(b))
}

// Zeros alone: 32 bytes at a time, then those that are left.
#[tactic(auto, using(crate::proofs::Zeros::in_blocks))]
pub fn is_clear(bytes: &[u8]) -> bool
    ensures { result ≡ every is_zero bytes.now }
{
    let (blocks, rest) = bytes.as_chunks::<32>();
    all_zero_blocks(blocks) && words_clear(rest)
}

// The count is within the room, and zeros stand behind the rows in use.
#[tactic(auto, using(crate::proofs::Zeros::tail_there))]
pub fn is_tidy(table: &[u8], room: usize, width: usize) -> bool
    requires { length table.now ≡ 8 + room * width }
    ensures { result ≡ tidy width room table.now }
{
    let count = number8(table, 0);
    count <= room as u64 && is_clear(&table[8 + count as usize * width..])
}
