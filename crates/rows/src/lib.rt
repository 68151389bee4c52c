#![tactic(auto)]

// The five tables of a store: what their rows say, and the keys by which they rise.
ghost use Rattle.metadata.specs.Tables.{node_key, table_key, tablet_key, group_key, placement_key, retirement_key, blank_node, blank_table, blank_tablet, blank_placement, blank_retirement};
ghost use Rattle.rows.specs.Rows.{node_row, table_row, tablet_row, placement_row, retirement_row};
ghost use Rattle.std.specs.Prelude.{◌≡◌};

mod fields;

use decode::places::{RETIREMENT_REPLICA, TABLET_GROUP};
use decode::{node_at, placement_at, retirement_at, table_at, tablet_at};
use encode::{NODE_BYTES, PLACEMENT_BYTES, RETIREMENT_BYTES, TABLE_BYTES, TABLET_BYTES};
pub use fields::{
    bucket, end_key, endpoints, epoch_of, group_of, in_table, is_active, is_hash, is_range,
    label_place, lifecycle, node_id, start_key, storage_class, tablet_id,
};
use metadata::{
    DesiredReplicaPlacement, NodeDescriptor, NodeId, RaftGroupId, ReplicaId, ReplicaKey,
    RetiredReplicaLifetime, TableId, TableRow, TabletDescriptor, TabletId,
};
use numbers::number8;
use tables::Table;

// A row as it stands in its table.
pub type NodeBytes = [u8; NODE_BYTES];

pub type TableBytes = [u8; TABLE_BYTES];

pub type TabletBytes = [u8; TABLET_BYTES];

pub type PlacementBytes = [u8; PLACEMENT_BYTES];

pub type RetirementBytes = [u8; RETIREMENT_BYTES];

// A node of zeros, to fill places that no one reads.
pub const BLANK_NODE: NodeBytes = [0; NODE_BYTES];

// The kinds of table. Each key begins at the start of its row, but for a tablet's group.
pub struct Nodes;

pub struct Tables;

pub struct Tablets;

// The tablets by their group.
pub struct Groups;

pub struct Placements;

pub struct Retirements;

impl Table for Nodes {
    type Record = NodeDescriptor;

    type Key = NodeId;

    type Bytes = NodeBytes;

    ghost keyed = { node_key };

    ghost key_of = { λ k. k.0 };

    ghost record_of = { node_row };

    ghost blank = { blank_node };

    fn read(row: &NodeBytes) -> NodeDescriptor {
        node_at(row, 0)
    }

    fn key(x: &NodeDescriptor) -> NodeId {
        x.node_id
    }

    fn has_key(row: &NodeBytes, key: NodeId) -> bool {
        number8(row, 0) == key.0
    }

    fn is_behind(row: &NodeBytes, key: NodeId) -> bool {
        key.0 < number8(row, 0)
    }
}

impl Table for Tables {
    type Record = TableRow;

    type Key = TableId;

    type Bytes = TableBytes;

    ghost keyed = { table_key };

    ghost key_of = { λ k. k.0 };

    ghost record_of = { table_row };

    ghost blank = { blank_table };

    fn read(row: &TableBytes) -> TableRow {
        table_at(row, 0)
    }

    fn key(x: &TableRow) -> TableId {
        x.table_id
    }

    fn has_key(row: &TableBytes, key: TableId) -> bool {
        number8(row, 0) == key.0
    }

    fn is_behind(row: &TableBytes, key: TableId) -> bool {
        key.0 < number8(row, 0)
    }
}

impl Table for Tablets {
    type Record = TabletDescriptor;

    type Key = TabletId;

    type Bytes = TabletBytes;

    ghost keyed = { tablet_key };

    ghost key_of = { λ k. k.0 };

    ghost record_of = { tablet_row };

    ghost blank = { blank_tablet };

    fn read(row: &TabletBytes) -> TabletDescriptor {
        tablet_at(row, 0)
    }

    fn key(x: &TabletDescriptor) -> TabletId {
        x.tablet_id
    }

    fn has_key(row: &TabletBytes, key: TabletId) -> bool {
        number8(row, 0) == key.0
    }

    fn is_behind(row: &TabletBytes, key: TabletId) -> bool {
        key.0 < number8(row, 0)
    }
}

impl Table for Groups {
    type Record = TabletDescriptor;

    type Key = RaftGroupId;

    type Bytes = TabletBytes;

    ghost keyed = { group_key };

    ghost key_of = { λ k. k.0 };

    ghost record_of = { tablet_row };

    ghost blank = { blank_tablet };

    fn read(row: &TabletBytes) -> TabletDescriptor {
        tablet_at(row, 0)
    }

    fn key(x: &TabletDescriptor) -> RaftGroupId {
        x.raft_group_id
    }

    fn has_key(row: &TabletBytes, key: RaftGroupId) -> bool {
        number8(row, TABLET_GROUP) == key.0
    }

    fn is_behind(row: &TabletBytes, key: RaftGroupId) -> bool {
        key.0 < number8(row, TABLET_GROUP)
    }
}

impl Table for Placements {
    type Record = DesiredReplicaPlacement;

    type Key = TabletId;

    type Bytes = PlacementBytes;

    ghost keyed = { placement_key };

    ghost key_of = { λ k. k.0 };

    ghost record_of = { placement_row };

    ghost blank = { blank_placement };

    fn read(row: &PlacementBytes) -> DesiredReplicaPlacement {
        placement_at(row, 0)
    }

    fn key(x: &DesiredReplicaPlacement) -> TabletId {
        x.tablet_id
    }

    fn has_key(row: &PlacementBytes, key: TabletId) -> bool {
        number8(row, 0) == key.0
    }

    fn is_behind(row: &PlacementBytes, key: TabletId) -> bool {
        key.0 < number8(row, 0)
    }
}

impl Table for Retirements {
    type Record = RetiredReplicaLifetime;

    type Key = ReplicaKey;

    type Bytes = RetirementBytes;

    ghost keyed = { retirement_key };

    ghost key_of = { λ k. (k.raft_group_id.0, k.replica_id.0) };

    ghost record_of = { retirement_row };

    ghost blank = { blank_retirement };

    fn read(row: &RetirementBytes) -> RetiredReplicaLifetime {
        retirement_at(row, 0)
    }

    fn key(x: &RetiredReplicaLifetime) -> ReplicaKey {
        x.key()
    }

    fn has_key(row: &RetirementBytes, key: ReplicaKey) -> bool {
        // A group has many rows: the number tells most of them apart.
        number8(row, RETIREMENT_REPLICA) == key.replica_id.0
            && number8(row, 0) == key.raft_group_id.0
    }

    fn is_behind(row: &RetirementBytes, key: ReplicaKey) -> bool {
        key < retirement_at(row, 0).key()
    }
}
