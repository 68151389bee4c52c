#![tactic(auto)]

ghost use Rattle.std.specs.Prelude.{◌≡◌};
ghost use Rattle.metadata.specs.Marks.{initial_marks, next_replica_id};

mod answers;
mod kinds;
mod lifecycle;
mod placements;
mod rows;

pub use kinds::{Domain, TableKind, TapeFault};
pub use lifecycle::NodeLifecycle;
pub use rows::ReplicaKey;
use text::{Optional, Text};

// The tables of the metadata store: who holds what. Types carry the names of the Rust source where it has one.
// The rooms: document 01, "Room and admission". specs/Rooms.antt names them once more.
pub const NODE_ROOM: usize = 32;

pub const TABLE_ROOM: usize = 16;

pub const TABLET_ROOM: usize = 64;

pub const RETIREMENT_ROOM: usize = 256;

pub const REPLICA_ROOM: usize = 7;

pub const NAME_WIDTH: usize = 48;

pub const LABEL_WIDTH: usize = 24;

pub const KEY_WIDTH: usize = 32;
// select_initial_placement takes at most this many nodes.
pub const INITIAL_REPLICATION_FACTOR: usize = 3;

// The five kinds of ids are types of their own, as in the source: one generic type would need a sixth to tell them apart.
#[derive(Clone, Copy, PartialEq, Eq, PartialOrd, Ord)]
pub struct NodeId(pub u64);

#[derive(Clone, Copy, PartialEq, Eq, PartialOrd, Ord)]
pub struct ReplicaId(pub u64);

#[derive(Clone, Copy, PartialEq, Eq, PartialOrd, Ord)]
pub struct TabletId(pub u64);

#[derive(Clone, Copy, PartialEq, Eq, PartialOrd, Ord)]
pub struct RaftGroupId(pub u64);

#[derive(Clone, Copy, PartialEq, Eq, PartialOrd, Ord)]
pub struct TableId(pub u64);

pub type Name = Text<NAME_WIDTH>;

pub type Label = Text<LABEL_WIDTH>;

// A key; no bytes mean unbounded.
pub type Key = Text<KEY_WIDTH>;

pub type OptionalName = Optional<NAME_WIDTH>;

pub type OptionalLabel = Optional<LABEL_WIDTH>;

// Lifecycle, kind and role are bytes in the rows, as on the tape: a command may bring any byte, which reason 5 refuses, and an enum could not hold it.
// Which lifecycle a number is, is read as an enum (`NodeLifecycle::from_number`), but for `is_active`; a kind and a role are asked by one comparison each time.
#[derive(Clone, Copy)]
pub struct NodeDescriptor {
    pub node_id: NodeId,
    pub raft_addr: Name,
    pub snapshot_addr: Name,
    pub sql_addr: Name,
    pub admin_addr: Name,
    pub region: OptionalLabel,
    pub zone: OptionalLabel,
    pub rack: OptionalLabel,
    pub storage_class: Label,
    // 0 Active, 1 Draining, 2 Decommissioning, 3 Decommissioned, 4 Tombstoned
    pub lifecycle: u8,
}

// The kind stands beside both kinds' operands: 0 Hash, 1 Range; those of the other kind are zero.
#[derive(Clone, Copy, PartialEq)]
pub struct PartitionSpec {
    pub kind: u8,
    pub bucket: u32,
    pub bucket_count: u32,
    pub start_key: Key,
    pub end_key: Key,
}

#[derive(Clone, Copy, PartialEq)]
pub struct TabletDescriptor {
    pub tablet_id: TabletId,
    pub table_id: TableId,
    pub raft_group_id: RaftGroupId,
    pub tablet_epoch: u64,
    pub partition: PartitionSpec,
}

#[derive(Clone, Copy, PartialEq)]
pub struct DesiredReplica {
    pub replica_id: ReplicaId,
    pub node_id: NodeId,
    // 0 Voter, 1 Learner
    pub role: u8,
}

// Lists in rows are arrays with a count beside them, as on the tape: memory is fixed, and reasons 7 and 9 judge the unused places.
#[derive(Clone, Copy)]
pub struct PlacementPolicy {
    pub replication_factor: u32,
    pub min_distinct_regions: u32,
    pub min_distinct_zones: u32,
    pub min_distinct_racks: u32,
    pub required_storage_class: OptionalLabel,
    pub preferred_leader_count: u8,
    pub preferred_leader_nodes: [NodeId; REPLICA_ROOM],
}

#[derive(Clone, Copy)]
pub struct DesiredReplicaPlacement {
    pub tablet_id: TabletId,
    pub configuration_epoch: u64,
    pub replica_count: u8,
    pub replicas: [DesiredReplica; REPLICA_ROOM],
    pub placement_policy: PlacementPolicy,
}

#[derive(Clone, Copy, PartialEq)]
pub struct RetiredReplicaLifetime {
    pub raft_group_id: RaftGroupId,
    pub replica_id: ReplicaId,
    pub desired_configuration_epoch: u64,
    pub removed_conf_state_version: u64,
    pub removal_index: u64,
    pub removal_term: u64,
}

#[derive(Clone, Copy, PartialEq)]
pub struct TableRow {
    pub table_id: TableId,
    pub tablet_count: u32,
}

// The marks: the largest id of each kind seen so far.
#[derive(Clone, Copy)]
pub struct MetadataAllocatorState {
    pub max_table_id: u64,
    pub max_tablet_id: u64,
    pub max_raft_group_id: u64,
    pub max_replica_id: u64,
}

impl MetadataAllocatorState {
    pub const INITIAL_TABLE_HIGH_WATER: u64 = 1;

    pub const INITIAL_TABLET_HIGH_WATER: u64 = 1;

    pub const INITIAL_REPLICA_HIGH_WATER: u64 = 0;
    // No id lies above it: the mark of an exhausted kind.
    pub const LIMIT: u64 = 0xFFFF_FFFF_FFFF_FFFF;

    // The marks before any table, tablet or replica; the group mark is the opening's.
    pub fn initial(max_raft_group_id: u64) -> Self
        ensures { result ≡ initial_marks max_raft_group_id }
    {
        Self {
            max_table_id: MetadataAllocatorState::INITIAL_TABLE_HIGH_WATER,
            max_tablet_id: MetadataAllocatorState::INITIAL_TABLET_HIGH_WATER,
            max_raft_group_id,
            max_replica_id: MetadataAllocatorState::INITIAL_REPLICA_HIGH_WATER,
        }
    }

    // Mark plus one, none at the limit.
    pub fn next_replica_id(self) -> Option<ReplicaId>
        ensures { result ≡ next_replica_id self }
    {
        if self.max_replica_id == MetadataAllocatorState::LIMIT {
            return None;
        }
        Some(ReplicaId(self.max_replica_id + 1))
    }
}

// Document 01's answers and refusals, from 0 on; specs/Answers.antt gives each its number and operands. An operand is a
// number here where it repeats one that was brought (a lifecycle, a byte), or where document 01 counts: the lowest reason, the place of a field.
#[derive(Clone, Copy)]
pub enum Answer {
    Applied,
    AlreadyApplied,
    Picked(NodeId, NodeId, NodeId),
    InvalidCommand(u8),
    NotInitialized,
    ClusterConflict,
    NodeIdConflict(NodeId),
    NodeEndpointConflict(NodeId, NodeId, u8),
    InvalidNodeLifecycleTransition(NodeId, u8, u8),
    NodeStillExpected(NodeId, RaftGroupId, ReplicaId),
    UnknownNode(NodeId),
    TabletIdConflict(TabletId),
    RaftGroupConflict(RaftGroupId),
    UnknownTable(TableId),
    PartitionCountMismatch(TableId, u32, u32),
    PartitionConflict(TableId, u32),
    TabletCountExceeded(TableId, u32),
    RangeOverlap(TabletId),
    UnknownTablet(TabletId),
    NodeNotEligible(NodeId, u8),
    PlacementStorageClassMismatch(NodeId),
    RetiredReplicaReuse(RaftGroupId, ReplicaId),
    PlacementDomainUnsatisfied(Domain, u32, u32),
    InitialPlacementEpoch(TabletId, u64),
    PlacementEpochExhausted(TabletId),
    PlacementEpochMismatch(TabletId, u64, u64),
    ReplicaHostChanged(ReplicaId, NodeId, NodeId),
    UnsupportedVoterDemotion(ReplicaId),
    UnknownRaftGroup(RaftGroupId),
    RetirementStillDesired(RaftGroupId, ReplicaId),
    RetirementProofConflict(RaftGroupId, ReplicaId),
    NoRegisteredNodes,
    TableFull(TableKind, u64),
    BadTape(TapeFault, u8),
}

// The seven commands of the tape. The lifecycle that is asked for may be any byte.
#[derive(Clone, Copy)]
pub enum Command {
    Naming(Name),
    Registering(NodeDescriptor),
    Lifecycle(NodeId, u8),
    Tablet(TabletDescriptor),
    Placement(DesiredReplicaPlacement),
    Retirement(RetiredReplicaLifetime),
    Picking,
}

// An answer as document 01 prints it: there an answer is a number with three operands.
#[derive(Clone, Copy)]
pub struct Reported {
    pub number: u8,
    pub operands: [u64; 3],
}

// The first choice: the nodes in order of choice, zero where a place is not filled, and their policy. An array with its count, since there is no heap.
#[derive(Clone, Copy)]
pub struct InitialPlacement {
    pub node_count: u8,
    pub nodes: [NodeId; INITIAL_REPLICATION_FACTOR],
    pub placement_policy: PlacementPolicy,
}

// What the clash search finds: the existing node, the new node's field and the existing node's field.
#[derive(Clone, Copy)]
pub struct Clash {
    pub node_id: NodeId,
    pub field: u8,
    pub existing_field: u8,
}
