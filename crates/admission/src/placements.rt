// The reasons of a placement.
ghost use Rattle.std.specs.Prelude.{◌≡◌, ◌||◌, ltb, drop};
ghost use Rattle.laws.specs.Bytes.{is_zero};
ghost use Rattle.laws.specs.Lists.{every, any, none_twice};
ghost use Rattle.metadata.specs.Tables.{desired, leaders, is_zero_replica, is_zero_id};
ghost use Rattle.metadata.specs.Commands.{lowest, placement_faults, replicas_admitted, minima_admitted, leaders_admitted, class_blank, same_replica_id, same_host, same_id};
ghost use Rattle.admission.specs.Reasons.{reason_of};

use crate::reasons::Reason;
use crate::texts::optional_admitted;
use lists::none_twice;
use metadata::{DesiredReplica, DesiredReplicaPlacement, NodeId, PlacementPolicy, REPLICA_ROOM};

// Reason 5: "a used role or partition kind above 1". A byte is compared, since a command may bring any.
const LAST_ROLE: u8 = 1;

// No number and no host stands twice (reason 7), and no leader (reason 9): a call of `none_twice` each, by the name that the reason has for it.
fn no_replica_twice(replicas: &[DesiredReplica]) -> bool
    ensures { result ≡ none_twice same_replica_id replicas.now }
{
    none_twice(replicas, |a, b| a.replica_id == b.replica_id)
}

pub fn no_host_twice(replicas: &[DesiredReplica]) -> bool
    ensures { result ≡ none_twice same_host replicas.now }
{
    none_twice(replicas, |a, b| a.node_id == b.node_id)
}

fn no_leader_twice(leaders: &[NodeId]) -> bool
    ensures { result ≡ none_twice same_id leaders.now }
{
    none_twice(leaders, |a, b| a == b)
}

// Reason 7 does not apply.
#[tactic(auto, unfolding(metadata::specs::Commands::replicas_admitted, laws::specs::Tests::all_of))]
pub fn replicas_admitted(p: &DesiredReplicaPlacement) -> bool
    ensures { result ≡ replicas_admitted p.now }
{
    1 <= p.replica_count
        && p.replica_count as usize <= REPLICA_ROOM
        && p.placement_policy.replication_factor == u32::from(p.replica_count)
        && no_replica_twice(p.desired())
        && no_host_twice(p.desired())
        && p.is_padded()
}

// Reason 8 does not apply.
#[tactic(auto, unfolding(metadata::specs::Commands::minima_admitted, laws::specs::Tests::all_of))]
pub fn minima_admitted(q: &PlacementPolicy) -> bool
    ensures { result ≡ minima_admitted q.now }
{
    q.min_distinct_regions <= q.replication_factor
        && q.min_distinct_zones <= q.replication_factor
        && q.min_distinct_racks <= q.replication_factor
}

fn any_zero_leader(q: &PlacementPolicy) -> bool
    ensures { result ≡ any is_zero_id (leaders q.now) }
{
    q.leaders().iter().any(|k| k.is_zero())
}

// Reason 9 does not apply.
#[tactic(auto, unfolding(metadata::specs::Commands::leaders_admitted, laws::specs::Tests::all_of))]
pub fn leaders_admitted(q: &PlacementPolicy) -> bool
    ensures { result ≡ leaders_admitted q.now }
{
    q.preferred_leader_count as usize <= REPLICA_ROOM
        && !any_zero_leader(q)
        && no_leader_twice(q.leaders())
        && q.is_padded()
}

// Reason 4: a class that is asked for, empty or all spaces.
#[tactic(auto, unfolding(metadata::specs::Commands::class_blank))]
pub fn class_blank(q: &PlacementPolicy) -> bool
    ensures { result ≡ class_blank q.now }
{
    q.required_storage_class.present && q.required_storage_class.text.is_blank()
}

fn has_zero_id(r: &DesiredReplica) -> bool
    ensures { result ≡ (is_zero r.now.replica_id.0 || is_zero r.now.node_id.0) }
{
    r.replica_id.0 == 0 || r.node_id.0 == 0
}

// Reason 1: "preferred leaders excepted".
fn any_zero_id(p: &DesiredReplicaPlacement) -> bool
    ensures { result ≡ any (λ r. is_zero r.replica_id.0 || is_zero r.node_id.0) (desired p.now) }
{
    p.desired().iter().any(|r| has_zero_id(r))
}

fn unknown_role(p: &DesiredReplicaPlacement) -> bool
    ensures { result ≡ any (λ r. ltb 1 r.role) (desired p.now) }
{
    p.desired().iter().any(|r| LAST_ROLE < r.role)
}

pub fn admit_placement(p: &DesiredReplicaPlacement) -> Result<(), Reason>
    ensures { reason_of result ≡ lowest (placement_faults p.now) }
{
    if p.tablet_id.0 == 0 || any_zero_id(p) {
        return Err(Reason::ZeroId);
    }
    if !optional_admitted(&p.placement_policy.required_storage_class) {
        return Err(Reason::Text);
    }
    if class_blank(&p.placement_policy) {
        return Err(Reason::BlankClass);
    }
    if unknown_role(p) {
        return Err(Reason::UnknownVariant);
    }
    if !replicas_admitted(p) {
        return Err(Reason::Replicas);
    }
    if !minima_admitted(&p.placement_policy) {
        return Err(Reason::Minima);
    }
    if !leaders_admitted(&p.placement_policy) {
        return Err(Reason::Leaders);
    }
    Ok(())
}
