// A placement and its policy as rows: what they list, their unused places, and when two are the same.
ghost use Rattle.laws.specs.Lists.{every};
ghost use Rattle.metadata.specs.Tables.{desired, leaders, same_policy, same_placement, is_zero_replica, is_zero_id};
ghost use Rattle.metadata.specs.Rooms.{replica_room};
ghost use Rattle.std.specs.Prelude.{◌≡◌, ◌≤◌, drop, length};

use crate::{DesiredReplica, DesiredReplicaPlacement, NodeId, PlacementPolicy, REPLICA_ROOM};

// Document 01's replica and id of zeros.
impl DesiredReplica {
    pub fn is_zero(&self) -> bool
        ensures { result ≡ is_zero_replica self.now }
    {
        self.replica_id.0 == 0 && self.node_id.0 == 0 && self.role == 0
    }
}

impl NodeId {
    pub fn is_zero(&self) -> bool
        ensures { result ≡ is_zero_id self.now }
    {
        self.0 == 0
    }
}

// A policy and a placement each lend a list that stands in an array with its count beside it, which are fields of the source's records; so these methods stand at both.
impl PlacementPolicy {
    // The preferred leaders; a count above the room makes all places used.
    pub fn leaders(&self) -> &[NodeId]
        ensures value { result.now ≡ leaders self.now }
        ensures within { length result.now ≤ replica_room }
    {
        &self.preferred_leader_nodes[..(self.preferred_leader_count as usize).min(REPLICA_ROOM)]
    }

    fn unused_leaders(&self) -> &[NodeId]
        ensures { result.now ≡ drop self.now.preferred_leader_count self.now.preferred_leader_nodes }
    {
        &self.preferred_leader_nodes[(self.preferred_leader_count as usize).min(REPLICA_ROOM)..]
    }

    // Those are all zero.
    pub fn is_padded(&self) -> bool
        ensures { result ≡ every is_zero_id (drop self.now.preferred_leader_count self.now.preferred_leader_nodes) }
    {
        self.unused_leaders().iter().all(|k| k.is_zero())
    }

    // No derived `==`: it would compare the places past the count too, which sameness leaves out.
    #[tactic(auto, unfolding(laws::specs::Tests::all_of, crate::specs::Tables::same_policy))]
    pub fn is_same(&self, other: &Self) -> bool
        ensures { result ≡ same_policy self.now other.now }
    {
        self.replication_factor == other.replication_factor
            && self.min_distinct_regions == other.min_distinct_regions
            && self.min_distinct_zones == other.min_distinct_zones
            && self.min_distinct_racks == other.min_distinct_racks
            && self.required_storage_class == other.required_storage_class
            && self.leaders() == other.leaders()
    }
}

impl DesiredReplicaPlacement {
    // The desired replicas; a count above the room makes all places used.
    pub fn desired(&self) -> &[DesiredReplica]
        ensures value { result.now ≡ desired self.now }
        ensures within { length result.now ≤ replica_room }
    {
        &self.replicas[..(self.replica_count as usize).min(REPLICA_ROOM)]
    }

    fn unused_replicas(&self) -> &[DesiredReplica]
        ensures { result.now ≡ drop self.now.replica_count self.now.replicas }
    {
        &self.replicas[(self.replica_count as usize).min(REPLICA_ROOM)..]
    }

    // Those are all zero.
    pub fn is_padded(&self) -> bool
        ensures { result ≡ every is_zero_replica (drop self.now.replica_count self.now.replicas) }
    {
        self.unused_replicas().iter().all(|r| r.is_zero())
    }

    // No derived `==`, for the same reason.
    #[tactic(auto, unfolding(laws::specs::Tests::all_of, crate::specs::Tables::same_placement))]
    pub fn is_same(&self, other: &Self) -> bool
        ensures { result ≡ same_placement self.now other.now }
    {
        self.tablet_id == other.tablet_id
            && self.configuration_epoch == other.configuration_epoch
            && self.desired() == other.desired()
            && self.placement_policy.is_same(&other.placement_policy)
    }
}
