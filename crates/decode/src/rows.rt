// Rows read from a lent slice, field by field. No `TryFrom`, since who reads has tested that the bytes are there.
ghost use Rattle.decode.specs.Decode.{node_at, tablet_at, replica_at, placement_at, retirement_at, table_at, list_at, node_id_at};
ghost use Rattle.metadata.specs.Rooms.{replica_room, table_room};
ghost use Rattle.std.specs.Prelude.{◌≡◌, ◌+◌, ◌*◌, ◌≤◌, length, take};

use crate::places::{
    LEADER_WIDTH, NODE_ADMIN, NODE_CLASS, NODE_LIFECYCLE, NODE_RACK, NODE_RAFT, NODE_REGION,
    NODE_SNAPSHOT, NODE_SQL, NODE_ZONE, PLACEMENT_CLASS, PLACEMENT_COUNT, PLACEMENT_EPOCH,
    PLACEMENT_FACTOR, PLACEMENT_LEADER_COUNT, PLACEMENT_LEADERS, PLACEMENT_RACKS,
    PLACEMENT_REGIONS, PLACEMENT_REPLICAS, PLACEMENT_ZONES, REPLICA_NODE, REPLICA_ROLE,
    REPLICA_WIDTH, RETIREMENT_EPOCH, RETIREMENT_INDEX, RETIREMENT_REPLICA, RETIREMENT_TERM,
    RETIREMENT_VERSION, TABLE_COUNT, TABLE_WIDTH, TABLET_BUCKET, TABLET_BUCKET_COUNT, TABLET_END,
    TABLET_EPOCH, TABLET_GROUP, TABLET_KIND, TABLET_START, TABLET_TABLE,
};
use crate::{optional_at, text_at};
use metadata::{
    DesiredReplica, DesiredReplicaPlacement, NodeDescriptor, NodeId, PartitionSpec,
    PlacementPolicy, REPLICA_ROOM, RaftGroupId, ReplicaId, RetiredReplicaLifetime, TABLE_ROOM,
    TableId, TableRow, TabletDescriptor, TabletId,
};
use numbers::{number4, number8};
use std::array;

pub fn node_at(s: &[u8], at: usize) -> NodeDescriptor
    requires { at + 305 ≤ length s.now }
    ensures { result ≡ node_at s.now at }
{
    NodeDescriptor {
        node_id: NodeId(number8(s, at)),
        raft_addr: text_at(s, at + NODE_RAFT),
        snapshot_addr: text_at(s, at + NODE_SNAPSHOT),
        sql_addr: text_at(s, at + NODE_SQL),
        admin_addr: text_at(s, at + NODE_ADMIN),
        region: optional_at(s, at + NODE_REGION),
        zone: optional_at(s, at + NODE_ZONE),
        rack: optional_at(s, at + NODE_RACK),
        storage_class: text_at(s, at + NODE_CLASS),
        lifecycle: s[at + NODE_LIFECYCLE],
    }
}

fn partition_at(s: &[u8], at: usize) -> PartitionSpec
    requires { at + 107 ≤ length s.now }
    ensures { result ≡ (tablet_at s.now at).partition }
{
    PartitionSpec {
        kind: s[at + TABLET_KIND],
        bucket: number4(s, at + TABLET_BUCKET),
        bucket_count: number4(s, at + TABLET_BUCKET_COUNT),
        start_key: text_at(s, at + TABLET_START),
        end_key: text_at(s, at + TABLET_END),
    }
}

pub fn tablet_at(s: &[u8], at: usize) -> TabletDescriptor
    requires { at + 107 ≤ length s.now }
    ensures { result ≡ tablet_at s.now at }
{
    TabletDescriptor {
        tablet_id: TabletId(number8(s, at)),
        table_id: TableId(number8(s, at + TABLET_TABLE)),
        raft_group_id: RaftGroupId(number8(s, at + TABLET_GROUP)),
        tablet_epoch: number8(s, at + TABLET_EPOCH),
        partition: partition_at(s, at),
    }
}

pub fn replica_at(s: &[u8], at: usize) -> DesiredReplica
    requires { at + 17 ≤ length s.now }
    ensures { result ≡ replica_at s.now at }
{
    DesiredReplica {
        replica_id: ReplicaId(number8(s, at)),
        node_id: NodeId(number8(s, at + REPLICA_NODE)),
        role: s[at + REPLICA_ROLE],
    }
}

fn replicas_at(s: &[u8], at: usize) -> [DesiredReplica; REPLICA_ROOM]
    requires { at + 119 ≤ length s.now }
    ensures { result ≡ list_at replica_at 17 replica_room s.now at }
{
    array::from_fn(|i| replica_at(s, at + REPLICA_WIDTH * i))
}

fn leaders_at(s: &[u8], at: usize) -> [NodeId; REPLICA_ROOM]
    requires { at + 56 ≤ length s.now }
    ensures { result ≡ list_at node_id_at 8 replica_room s.now at }
{
    array::from_fn(|i| NodeId(number8(s, at + LEADER_WIDTH * i)))
}

fn policy_at(s: &[u8], at: usize) -> PlacementPolicy
    requires { at + 234 ≤ length s.now }
    ensures { result ≡ (placement_at s.now at).placement_policy }
{
    PlacementPolicy {
        replication_factor: number4(s, at + PLACEMENT_FACTOR),
        min_distinct_regions: number4(s, at + PLACEMENT_REGIONS),
        min_distinct_zones: number4(s, at + PLACEMENT_ZONES),
        min_distinct_racks: number4(s, at + PLACEMENT_RACKS),
        required_storage_class: optional_at(s, at + PLACEMENT_CLASS),
        preferred_leader_count: s[at + PLACEMENT_LEADER_COUNT],
        preferred_leader_nodes: leaders_at(s, at + PLACEMENT_LEADERS),
    }
}

pub fn placement_at(s: &[u8], at: usize) -> DesiredReplicaPlacement
    requires { at + 234 ≤ length s.now }
    ensures { result ≡ placement_at s.now at }
{
    DesiredReplicaPlacement {
        tablet_id: TabletId(number8(s, at)),
        configuration_epoch: number8(s, at + PLACEMENT_EPOCH),
        replica_count: s[at + PLACEMENT_COUNT],
        replicas: replicas_at(s, at + PLACEMENT_REPLICAS),
        placement_policy: policy_at(s, at),
    }
}

pub fn retirement_at(s: &[u8], at: usize) -> RetiredReplicaLifetime
    requires { at + 48 ≤ length s.now }
    ensures { result ≡ retirement_at s.now at }
{
    RetiredReplicaLifetime {
        raft_group_id: RaftGroupId(number8(s, at)),
        replica_id: ReplicaId(number8(s, at + RETIREMENT_REPLICA)),
        desired_configuration_epoch: number8(s, at + RETIREMENT_EPOCH),
        removed_conf_state_version: number8(s, at + RETIREMENT_VERSION),
        removal_index: number8(s, at + RETIREMENT_INDEX),
        removal_term: number8(s, at + RETIREMENT_TERM),
    }
}

pub fn table_at(s: &[u8], at: usize) -> TableRow
    requires { at + 12 ≤ length s.now }
    ensures { result ≡ table_at s.now at }
{
    TableRow {
        table_id: TableId(number8(s, at)),
        tablet_count: number4(s, at + TABLE_COUNT),
    }
}

// The first count rows are those of the bytes, one behind the other; the rest are rows of zeros.
pub fn tables_at(s: &[u8], at: usize, count: usize) -> [TableRow; TABLE_ROOM]
    requires { (count ≤ table_room) × (at + 12 * count ≤ length s.now) }
    ensures { take count result ≡ list_at table_at 12 count s.now at }
{
    let none = TableRow {
        table_id: TableId(0),
        tablet_count: 0,
    };
    let mut rows = [none; TABLE_ROOM];
    for (i, row) in rows[..count].iter_mut().enumerate() {
        *row = table_at(s, at + TABLE_WIDTH * i);
    }
    rows
}
