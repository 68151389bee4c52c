#![tactic(auto, unfolding(metadata::specs::Answers::answer_if, metadata::specs::Answers::and_then))]

// Retirements: what the retirement of a replica number is answered, and which numbers are retired.
ghost use Rattle.std.specs.Prelude.{◌≡◌, true, false, eqb, MatchOption};
ghost use Rattle.laws.specs.Keyed.{has};
ghost use Rattle.laws.specs.Lists.{any};
ghost use Rattle.metadata.specs.Answers.{Gives};
ghost use Rattle.metadata.specs.Tables.{group_key, tablet_of_group};
ghost use Rattle.metadata.specs.Tablets.{is_replica_retired, desires, judge_retirement};
ghost use Rattle.retirements.specs.Steps.{judge_known_row, judge_new_row};
ghost use Rattle.rows.specs.Rows.{tablet_rows, placement_rows, retirement_rows};

use metadata::{
    Answer, DesiredReplica, DesiredReplicaPlacement, RETIREMENT_ROOM, RaftGroupId, ReplicaId,
    ReplicaKey, RetiredReplicaLifetime, TableKind, TabletId,
};
use rows::{
    Groups, PlacementBytes, Placements, RetirementBytes, Retirements, TabletBytes, tablet_id,
};
use tables::{contains, get, stored};

// The id of the first tablet, by id, of the group.
// Rows rise by tablet id and not by group, so the search goes over all.
fn tablet_of_group(tablets: &[TabletBytes], group: RaftGroupId) -> Option<TabletId>
    ensures { MatchOption result (has group_key group.0 (tablet_rows tablets.now) ≡ false) (λ t. (has group_key group.0 (tablet_rows tablets.now) ≡ true) × ((tablet_of_group group.0 (tablet_rows tablets.now)).tablet_id ≡ t)) }
{
    let row = stored::<Groups>(tablets, group)?;
    Some(tablet_id(row))
}

// The number is retired in its group, the one test for it.
#[tactic(auto, unfolding(metadata::specs::Tablets::is_replica_retired))]
pub fn is_replica_retired(
    retirements: &[RetirementBytes],
    group: RaftGroupId,
    replica: ReplicaId,
) -> bool
    ensures { result ≡ is_replica_retired group.0 replica.0 (retirement_rows retirements.now) }
{
    let key = ReplicaKey {
        raft_group_id: group,
        replica_id: replica,
    };
    contains::<Retirements>(retirements, key)
}

// One of the replicas has the number.
pub fn holds_replica(replicas: &[DesiredReplica], replica: ReplicaId) -> bool
    ensures { result ≡ any (λ r. eqb r.replica_id.0 replica.0) replicas.now }
{
    replicas.iter().any(|r| r.replica_id == replica)
}

// The replica number is desired.
#[tactic(auto, unfolding(metadata::specs::Tablets::desires))]
pub fn desires(replica: ReplicaId, p: &DesiredReplicaPlacement) -> bool
    ensures { result ≡ desires replica.0 p.now }
{
    holds_replica(p.desired(), replica)
}

// A retirement that is known: the same row again, or another proof for the same replica.
fn judge_known_retirement(
    known: &RetiredReplicaLifetime,
    x: &RetiredReplicaLifetime,
) -> Result<(), Answer>
    ensures { Gives result (judge_known_row known.now x.now) }
{
    if known.is_same(x) {
        return Err(Answer::AlreadyApplied);
    }
    Err(Answer::RetirementProofConflict(x.raft_group_id, x.replica_id))
}

// The checks of a retirement that is not known yet, by the placement of its group's tablet.
fn judge_new_retirement(
    tablet: TabletId,
    p: &DesiredReplicaPlacement,
    retirements: &[RetirementBytes],
    x: &RetiredReplicaLifetime,
) -> Result<(), Answer>
    ensures { Gives result (judge_new_row tablet p.now.configuration_epoch (retirement_rows retirements.now) x.now) }
{
    let stored = p.configuration_epoch;
    let received = x.desired_configuration_epoch;
    if received != stored {
        return Err(Answer::PlacementEpochMismatch(tablet, stored, received));
    }
    if RETIREMENT_ROOM <= retirements.len() {
        return Err(Answer::TableFull(TableKind::Retirements, RETIREMENT_ROOM as u64));
    }
    Ok(())
}

// The checks of a retirement, from top to bottom; each row is looked up once.
// It is lent the tables that it reads, one by one: so its signature says which.
#[tactic(auto, unfolding(metadata::specs::Tablets::judge_retirement, metadata::specs::Tablets::judge_known_retirement, metadata::specs::Tablets::judge_new_retirement, metadata::specs::Tablets::is_replica_retired, metadata::specs::Tablets::desires, metadata::specs::Answers::answer_if, metadata::specs::Answers::and_then), using(laws::proofs::KeyedLaws::row_absent))]
pub fn judge_retirement(
    tablets: &[TabletBytes],
    placements: &[PlacementBytes],
    retirements: &[RetirementBytes],
    x: &RetiredReplicaLifetime,
) -> Result<(), Answer>
    ensures { Gives result (judge_retirement (tablet_rows tablets.now) (placement_rows placements.now) (retirement_rows retirements.now) x.now) }
{
    let Some(tablet) = tablet_of_group(tablets, x.raft_group_id) else {
        return Err(Answer::UnknownRaftGroup(x.raft_group_id));
    };
    let placement = get::<Placements>(placements, tablet);
    if placement.as_ref().is_some_and(|p| desires(x.replica_id, p)) {
        return Err(Answer::RetirementStillDesired(x.raft_group_id, x.replica_id));
    }
    if let Some(known) = get::<Retirements>(retirements, x.key()) {
        return judge_known_retirement(&known, x);
    }
    let Some(p) = &placement else {
        return Err(Answer::UnknownTablet(tablet));
    };
    judge_new_retirement(tablet, p, retirements, x)
}
