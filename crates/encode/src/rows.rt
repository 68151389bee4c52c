// Rows, marks and names as bytes, field by field, and marks and names read back: the rows are read by `decode`.
ghost use Rattle.std.specs.Prelude.{◌≡◌, ◌≢◌, ◌≤◌, true, length};
ghost use Rattle.decode.specs.Decode.{node_at, placement_at, retirement_at, table_at, tablet_at};
ghost use Rattle.metadata.specs.Sound.{sound_node, sound_placement};
ghost use Rattle.metadata.specs.Texts.{optional_name_fits};
ghost use Rattle.encode.specs.Encode.{node_bytes, placement_bytes, retirement_bytes, table_bytes, tablet_bytes, marks_bytes, marks_at, name_bytes, name_row};
ghost use Rattle.encode.specs.Widths.{marks_width, name_row_width};

use crate::pieces::{
    put_byte, put_leaders, put_name, put_number4, put_number8, put_optional, put_replicas, put_text,
};
use crate::{
    MARKS_BYTES, NAME_BYTES, NODE_BYTES, PLACEMENT_BYTES, RETIREMENT_BYTES, TABLE_BYTES,
    TABLET_BYTES,
};
use decode::places::{
    NODE_ADMIN, NODE_CLASS, NODE_LIFECYCLE, NODE_RACK, NODE_RAFT, NODE_REGION, NODE_SNAPSHOT,
    NODE_SQL, NODE_ZONE, PLACEMENT_CLASS, PLACEMENT_COUNT, PLACEMENT_EPOCH, PLACEMENT_FACTOR,
    PLACEMENT_LEADER_COUNT, PLACEMENT_LEADERS, PLACEMENT_RACKS, PLACEMENT_REGIONS,
    PLACEMENT_REPLICAS, PLACEMENT_ZONES, RETIREMENT_EPOCH, RETIREMENT_INDEX, RETIREMENT_REPLICA,
    RETIREMENT_TERM, RETIREMENT_VERSION, TABLE_COUNT, TABLET_BUCKET, TABLET_BUCKET_COUNT,
    TABLET_END, TABLET_EPOCH, TABLET_GROUP, TABLET_KIND, TABLET_START, TABLET_TABLE,
};
use decode::text_at;
use metadata::{
    DesiredReplicaPlacement, MetadataAllocatorState, NodeDescriptor, OptionalName,
    RetiredReplicaLifetime, TableRow, TabletDescriptor,
};
use numbers::number8;
use text::{Optional, Text};

pub fn table_bytes(t: &TableRow) -> [u8; TABLE_BYTES]
    ensures bytes { result ≡ table_bytes t.now }
    ensures read { table_at result 0 ≡ t.now }
{
    let mut row = [0; TABLE_BYTES];
    put_number8(&mut row, 0, t.table_id.0);
    put_number4(&mut row, TABLE_COUNT, t.tablet_count);
    row
}

pub fn node_bytes(n: &NodeDescriptor) -> [u8; NODE_BYTES]
    ensures bytes { result ≡ node_bytes n.now }
    ensures read { sound_node n.now ≡ true → node_at result 0 ≡ n.now }
{
    let mut row = [0; NODE_BYTES];
    put_number8(&mut row, 0, n.node_id.0);
    put_text(&mut row, NODE_RAFT, &n.raft_addr);
    put_text(&mut row, NODE_SNAPSHOT, &n.snapshot_addr);
    put_text(&mut row, NODE_SQL, &n.sql_addr);
    put_text(&mut row, NODE_ADMIN, &n.admin_addr);
    put_optional(&mut row, NODE_REGION, &n.region);
    put_optional(&mut row, NODE_ZONE, &n.zone);
    put_optional(&mut row, NODE_RACK, &n.rack);
    put_text(&mut row, NODE_CLASS, &n.storage_class);
    put_byte(&mut row, NODE_LIFECYCLE, n.lifecycle);
    row
}

pub fn tablet_bytes(t: &TabletDescriptor) -> [u8; TABLET_BYTES]
    ensures bytes { result ≡ tablet_bytes t.now }
    ensures read { tablet_at result 0 ≡ t.now }
{
    let mut row = [0; TABLET_BYTES];
    put_number8(&mut row, 0, t.tablet_id.0);
    put_number8(&mut row, TABLET_TABLE, t.table_id.0);
    put_number8(&mut row, TABLET_GROUP, t.raft_group_id.0);
    put_number8(&mut row, TABLET_EPOCH, t.tablet_epoch);
    put_byte(&mut row, TABLET_KIND, t.partition.kind);
    put_number4(&mut row, TABLET_BUCKET, t.partition.bucket);
    put_number4(&mut row, TABLET_BUCKET_COUNT, t.partition.bucket_count);
    put_text(&mut row, TABLET_START, &t.partition.start_key);
    put_text(&mut row, TABLET_END, &t.partition.end_key);
    row
}

pub fn placement_bytes(p: &DesiredReplicaPlacement) -> [u8; PLACEMENT_BYTES]
    ensures bytes { result ≡ placement_bytes p.now }
    ensures read { sound_placement p.now ≡ true → placement_at result 0 ≡ p.now }
{
    let policy = &p.placement_policy;
    let mut row = [0; PLACEMENT_BYTES];
    put_number8(&mut row, 0, p.tablet_id.0);
    put_number8(&mut row, PLACEMENT_EPOCH, p.configuration_epoch);
    put_byte(&mut row, PLACEMENT_COUNT, p.replica_count);
    put_replicas(&mut row, PLACEMENT_REPLICAS, &p.replicas);
    put_number4(&mut row, PLACEMENT_FACTOR, policy.replication_factor);
    put_number4(&mut row, PLACEMENT_REGIONS, policy.min_distinct_regions);
    put_number4(&mut row, PLACEMENT_ZONES, policy.min_distinct_zones);
    put_number4(&mut row, PLACEMENT_RACKS, policy.min_distinct_racks);
    put_optional(&mut row, PLACEMENT_CLASS, &policy.required_storage_class);
    put_byte(
        &mut row,
        PLACEMENT_LEADER_COUNT,
        policy.preferred_leader_count,
    );
    put_leaders(&mut row, PLACEMENT_LEADERS, &policy.preferred_leader_nodes);
    row
}

pub fn retirement_bytes(r: &RetiredReplicaLifetime) -> [u8; RETIREMENT_BYTES]
    ensures bytes { result ≡ retirement_bytes r.now }
    ensures read { retirement_at result 0 ≡ r.now }
{
    let mut row = [0; RETIREMENT_BYTES];
    put_number8(&mut row, 0, r.raft_group_id.0);
    put_number8(&mut row, RETIREMENT_REPLICA, r.replica_id.0);
    put_number8(&mut row, RETIREMENT_EPOCH, r.desired_configuration_epoch);
    put_number8(&mut row, RETIREMENT_VERSION, r.removed_conf_state_version);
    put_number8(&mut row, RETIREMENT_INDEX, r.removal_index);
    put_number8(&mut row, RETIREMENT_TERM, r.removal_term);
    row
}

pub fn marks_bytes(m: &MetadataAllocatorState) -> [u8; MARKS_BYTES]
    ensures bytes { result ≡ marks_bytes m.now }
    ensures read { marks_at result ≡ m.now }
{
    let mut row = [0; MARKS_BYTES];
    put_number8(&mut row, 0, m.max_table_id);
    put_number8(&mut row, 8, m.max_tablet_id);
    put_number8(&mut row, 16, m.max_raft_group_id);
    put_number8(&mut row, 24, m.max_replica_id);
    row
}

pub fn marks(bytes: &[u8]) -> MetadataAllocatorState
    requires { marks_width ≤ length bytes.now }
    ensures { result ≡ marks_at bytes.now }
{
    MetadataAllocatorState {
        max_table_id: number8(bytes, 0),
        max_tablet_id: number8(bytes, 8),
        max_raft_group_id: number8(bytes, 16),
        max_replica_id: number8(bytes, 24),
    }
}

// A name that is present and has no byte would be read back as no name.
pub fn name_bytes(n: &OptionalName) -> [u8; NAME_BYTES]
    ensures bytes { result ≡ name_bytes n.now }
    ensures read { optional_name_fits n.now ≡ true → (n.now.present ≡ true → n.now.text.len ≢ 0) → name_row result ≡ n.now }
{
    let mut row = [0; NAME_BYTES];
    put_name(&mut row, 0, n);
    row
}

pub fn name(bytes: &[u8]) -> OptionalName
    requires { name_row_width ≤ length bytes.now }
    ensures { result ≡ name_row bytes.now }
{
    let text = text_at(bytes, 0);
    Optional {
        present: text.len != 0,
        text,
    }
}
