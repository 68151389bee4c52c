// What the rows of the tables are: when two are the same, and the key of a retirement.
ghost use Rattle.metadata.specs.Tables.{same_node_directory, same_node, same_tablet, same_retirement};
ghost use Rattle.std.specs.Prelude.{◌≡◌};

use crate::{NodeDescriptor, RaftGroupId, ReplicaId, RetiredReplicaLifetime, TabletDescriptor};

impl NodeDescriptor {
    // All but the lifecycle, so it is no `PartialEq`.
    #[tactic(auto, unfolding(laws::specs::Tests::all_of, crate::specs::Tables::same_node_directory))]
    pub fn same_directory(&self, other: &Self) -> bool
        ensures { result ≡ same_node_directory self.now other.now }
    {
        self.node_id == other.node_id
            && self.raft_addr == other.raft_addr
            && self.snapshot_addr == other.snapshot_addr
            && self.sql_addr == other.sql_addr
            && self.admin_addr == other.admin_addr
            && self.region == other.region
            && self.zone == other.zone
            && self.rack == other.rack
            && self.storage_class == other.storage_class
    }

    // The same directory and the same lifecycle, as document 01 has it: a derived `==` would say that beside `same_directory`, which is asked alone too.
    #[tactic(auto, unfolding(laws::specs::Tests::all_of, crate::specs::Tables::same_node))]
    pub fn is_same(&self, other: &Self) -> bool
        ensures { result ≡ same_node self.now other.now }
    {
        self.same_directory(other) && self.lifecycle == other.lifecycle
    }
}

impl TabletDescriptor {
    // The derived `==`, by the name that a node and a placement have for sameness.
    #[tactic(auto, unfolding(laws::specs::Tests::all_of, crate::specs::Tables::same_tablet, crate::specs::Tables::same_partition))]
    pub fn is_same(&self, other: &Self) -> bool
        ensures { result ≡ same_tablet self.now other.now }
    {
        self == other
    }
}

// A replica number in its group.
#[derive(Clone, Copy, PartialEq, Eq, PartialOrd, Ord)]
pub struct ReplicaKey {
    pub raft_group_id: RaftGroupId,
    pub replica_id: ReplicaId,
}

impl RetiredReplicaLifetime {
    pub fn key(&self) -> ReplicaKey
        ensures { result ≡ record { raft_group_id = self.now.raft_group_id; replica_id = self.now.replica_id } }
    {
        ReplicaKey {
            raft_group_id: self.raft_group_id,
            replica_id: self.replica_id,
        }
    }

    // The derived `==`, by the same name.
    #[tactic(auto, unfolding(laws::specs::Tests::all_of, crate::specs::Tables::same_retirement))]
    pub fn is_same(&self, other: &Self) -> bool
        ensures { result ≡ same_retirement self.now other.now }
    {
        self == other
    }
}
