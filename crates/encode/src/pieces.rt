// Numbers and texts written at a place of a lent record. A record is written from front to back: each contract says that the front is then the front before with the piece behind it,
// and what is known of the piece by its type, which whoever reads it back needs.
ghost use Rattle.std.specs.Prelude.{◌≡◌, ◌+◌, ◌^◌, ◌++◌, ◌∷◌, [], ◌<◌, ◌≤◌, length, take};
ghost use Rattle.std.specs.Int.{w32, w64, to_le_bytes};
ghost use Rattle.std.specs.List.{flat_map};
ghost use Rattle.laws.specs.Lists.{All};
ghost use Rattle.metadata.specs.Rooms.{name_width, replica_room};
ghost use Rattle.encode.specs.Encode.{text_bytes, optional_bytes, name_bytes, replica_bytes, node_id_bytes};
ghost use Rattle.encode.specs.Typed.{TypedReplica, TypedId};

use metadata::{DesiredReplica, NodeId, OptionalName, REPLICA_ROOM};
use text::{Optional, Text};

fn put(row: &mut [u8], at: usize, piece: &[u8])
    requires { at + length piece.now ≤ length row.old }
    ensures front { take (at + length piece.now) row.new ≡ take at row.old ++ piece.now }
    ensures length { length row.new ≡ length row.old }
{
    row[at..at + piece.len()].copy_from_slice(piece);
}

pub fn put_byte(row: &mut [u8], at: usize, byte: u8)
    requires { at + 1 ≤ length row.old }
    ensures front { take (at + 1) row.new ≡ take at row.old ++ byte ∷ [] }
    ensures length { length row.new ≡ length row.old }
{
    row[at] = byte;
}

pub fn put_number4(row: &mut [u8], at: usize, number: u32)
    requires { at + 4 ≤ length row.old }
    ensures front { take (at + 4) row.new ≡ take at row.old ++ to_le_bytes w32 number }
    ensures length { length row.new ≡ length row.old }
    ensures fits { number < 2 ^ 32 }
{
    put(row, at, &number.to_le_bytes());
}

pub fn put_number8(row: &mut [u8], at: usize, number: u64)
    requires { at + 8 ≤ length row.old }
    ensures front { take (at + 8) row.new ≡ take at row.old ++ to_le_bytes w64 number }
    ensures length { length row.new ≡ length row.old }
    ensures fits { number < 2 ^ 64 }
{
    put(row, at, &number.to_le_bytes());
}

// A length byte, then the full width.
fn put_field<const N: usize>(row: &mut [u8], at: usize, len: u8, bytes: &[u8; N])
    requires { at + 1 + N ≤ length row.old }
    ensures front { take (at + 1 + N) row.new ≡ take at row.old ++ len ∷ bytes.now }
    ensures length { length row.new ≡ length row.old }
    ensures wide { length bytes.now ≡ N }
{
    put_byte(row, at, len);
    put(row, at + 1, bytes);
}

#[tactic(auto, unfolding(crate::specs::Encode::text_bytes))]
pub fn put_text<const N: usize>(row: &mut [u8], at: usize, text: &Text<N>)
    requires { at + 1 + N ≤ length row.old }
    ensures front { take (at + 1 + N) row.new ≡ take at row.old ++ text_bytes text.now }
    ensures length { length row.new ≡ length row.old }
    ensures wide { length text.now.bytes ≡ N }
{
    put_field(row, at, text.len, &text.bytes);
}

// Length 255 means absent.
const ABSENT: u8 = 255;

#[tactic(auto, unfolding(crate::specs::Encode::text_bytes, crate::specs::Encode::optional_bytes))]
pub fn put_optional<const N: usize>(row: &mut [u8], at: usize, label: &Optional<N>)
    requires { at + 1 + N ≤ length row.old }
    ensures front { take (at + 1 + N) row.new ≡ take at row.old ++ optional_bytes label.now }
    ensures length { length row.new ≡ length row.old }
    ensures wide { length label.now.text.bytes ≡ N }
{
    let len = if label.present {
        label.text.len
    } else {
        ABSENT
    };
    put_field(row, at, len, &label.text.bytes);
}

// A name has at least one byte, so length 0 means absent.
#[tactic(auto, unfolding(crate::specs::Encode::text_bytes, crate::specs::Encode::name_bytes))]
pub fn put_name(row: &mut [u8], at: usize, name: &OptionalName)
    requires { at + 1 + name_width ≤ length row.old }
    ensures front { take (at + 1 + name_width) row.new ≡ take at row.old ++ name_bytes name.now }
    ensures length { length row.new ≡ length row.old }
    ensures wide { length name.now.text.bytes ≡ name_width }
{
    let len = if name.present { name.text.len } else { 0 };
    put_field(row, at, len, &name.text.bytes);
}

#[tactic(auto, using(crate::proofs::Fronts::replica_front))]
fn put_replica(row: &mut [u8], at: usize, replica: &DesiredReplica)
    requires { at + 17 ≤ length row.old }
    ensures front { take (at + 17) row.new ≡ take at row.old ++ replica_bytes replica.now }
    ensures length { length row.new ≡ length row.old }
    ensures typed { TypedReplica replica.now }
{
    put_number8(row, at, replica.replica_id.0);
    put_number8(row, at + 8, replica.node_id.0);
    put_byte(row, at + 16, replica.role);
}

#[tactic(auto, using(crate::proofs::Fronts::written_rules))]
pub fn put_replicas(row: &mut [u8], at: usize, replicas: &[DesiredReplica; REPLICA_ROOM])
    requires { at + 119 ≤ length row.old }
    ensures front { take (at + 119) row.new ≡ take at row.old ++ flat_map replica_bytes replicas.now }
    ensures length { length row.new ≡ length row.old }
    ensures room { length replicas.now ≡ replica_room }
    ensures typed { All TypedReplica replicas.now }
{
    for (i, replica) in replicas.iter().enumerate() {
        put_replica(row, at + 17 * i, replica);
    }
}

#[tactic(auto, using(crate::proofs::Fronts::written_rules), unfolding(crate::specs::Encode::node_id_bytes))]
pub fn put_leaders(row: &mut [u8], at: usize, nodes: &[NodeId; REPLICA_ROOM])
    requires { at + 56 ≤ length row.old }
    ensures front { take (at + 56) row.new ≡ take at row.old ++ flat_map node_id_bytes nodes.now }
    ensures length { length row.new ≡ length row.old }
    ensures room { length nodes.now ≡ replica_room }
    ensures typed { All TypedId nodes.now }
{
    for (i, node) in nodes.iter().enumerate() {
        put_number8(row, at + 8 * i, node.0);
    }
}
