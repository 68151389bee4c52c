// Fields of a row, each read where it stands: who asks for a few of them does not read the whole record.
ghost use Rattle.metadata.specs.Tables.{endpoints};
ghost use Rattle.metadata.specs.Tablets.{is_hash, is_range, in_table};
ghost use Rattle.rows.specs.Rows.{node_row, label_place, tablet_row, placement_row};
ghost use Rattle.std.specs.Prelude.{◌≡◌, eqb, map};
ghost use Rattle.text.specs.Texts.{text_of};

use crate::{NodeBytes, PlacementBytes, TabletBytes};
use decode::places::{
    NODE_ADMIN, NODE_CLASS, NODE_LIFECYCLE, NODE_RACK, NODE_RAFT, NODE_REGION, NODE_SNAPSHOT,
    NODE_SQL, NODE_ZONE, PLACEMENT_EPOCH, TABLET_BUCKET, TABLET_END, TABLET_GROUP, TABLET_KIND,
    TABLET_START, TABLET_TABLE,
};
use decode::text_of;
use metadata::{
    Domain, KEY_WIDTH, LABEL_WIDTH, NAME_WIDTH, NodeId, RaftGroupId, TableId, TabletId,
};
use numbers::{number4, number8};

// ---- of a node

pub fn node_id(row: &NodeBytes) -> NodeId
    ensures { result ≡ (node_row row.now).node_id }
{
    NodeId(number8(row, 0))
}

// Raft, snapshot, sql, admin: their bytes.
pub fn endpoints(row: &NodeBytes) -> [&[u8]; 4]
    ensures { map (λ e. e.now) result ≡ map text_of (endpoints (node_row row.now)) }
{
    [
        text_of::<NAME_WIDTH>(row, NODE_RAFT),
        text_of::<NAME_WIDTH>(row, NODE_SNAPSHOT),
        text_of::<NAME_WIDTH>(row, NODE_SQL),
        text_of::<NAME_WIDTH>(row, NODE_ADMIN),
    ]
}

// Where the label for a domain stands: who holds many rows against one label asks once.
pub fn label_place(domain: Domain) -> usize
    ensures { result ≡ label_place domain }
{
    match domain {
        Domain::Region => NODE_REGION,
        Domain::Zone => NODE_ZONE,
        Domain::Rack => NODE_RACK,
    }
}

pub fn storage_class(row: &NodeBytes) -> &[u8]
    ensures { result.now ≡ text_of (node_row row.now).storage_class }
{
    text_of::<LABEL_WIDTH>(row, NODE_CLASS)
}

pub fn lifecycle(row: &NodeBytes) -> u8
    ensures { result ≡ (node_row row.now).lifecycle }
{
    row[NODE_LIFECYCLE]
}

pub fn is_active(row: &NodeBytes) -> bool
    ensures { result ≡ eqb (node_row row.now).lifecycle 0 }
{
    lifecycle(row) == 0
}

// ---- of a tablet

pub fn tablet_id(row: &TabletBytes) -> TabletId
    ensures { result ≡ (tablet_row row.now).tablet_id }
{
    TabletId(number8(row, 0))
}

pub fn group_of(row: &TabletBytes) -> RaftGroupId
    ensures { result ≡ (tablet_row row.now).raft_group_id }
{
    RaftGroupId(number8(row, TABLET_GROUP))
}

// The tablet is one of the table's.
pub fn in_table(k: TableId, row: &TabletBytes) -> bool
    ensures { result ≡ in_table k (tablet_row row.now) }
{
    number8(row, TABLET_TABLE) == k.0
}

// The kind is a byte, since a command may bring any: 0 is Hash, 1 is Range, and a row that no command gives may hold another, which is neither.
pub fn is_hash(row: &TabletBytes) -> bool
    ensures { result ≡ is_hash (tablet_row row.now) }
{
    row[TABLET_KIND] == 0
}

pub fn is_range(row: &TabletBytes) -> bool
    ensures { result ≡ is_range (tablet_row row.now) }
{
    row[TABLET_KIND] == 1
}

pub fn bucket(row: &TabletBytes) -> u32
    ensures { result ≡ (tablet_row row.now).partition.bucket }
{
    number4(row, TABLET_BUCKET)
}

pub fn start_key(row: &TabletBytes) -> &[u8]
    ensures { result.now ≡ text_of (tablet_row row.now).partition.start_key }
{
    text_of::<KEY_WIDTH>(row, TABLET_START)
}

pub fn end_key(row: &TabletBytes) -> &[u8]
    ensures { result.now ≡ text_of (tablet_row row.now).partition.end_key }
{
    text_of::<KEY_WIDTH>(row, TABLET_END)
}

// ---- of a placement

pub fn epoch_of(row: &PlacementBytes) -> u64
    ensures { result ≡ (placement_row row.now).configuration_epoch }
{
    number8(row, PLACEMENT_EPOCH)
}
