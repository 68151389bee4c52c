#![tactic(auto, unfolding(metadata::specs::Answers::answer_if, metadata::specs::Answers::and_then))]

// A placement against the stored one (document 01, refusals 30 to 34): its epoch, and the replicas that are kept.
ghost use Rattle.metadata.specs.Answers.{Gives};
ghost use Rattle.metadata.specs.Placements.{kept_replica, judge_kept, judge_kept_replicas};
ghost use Rattle.placements.specs.Stored.{stored_replicas, is_stored, judge_epoch_after, judge_room};
ghost use Rattle.std.specs.Option.{option_map};
ghost use Rattle.std.specs.Prelude.{◌≡◌};

use metadata::{
    Answer, DesiredReplica, DesiredReplicaPlacement, ReplicaId, TABLET_ROOM, TableKind,
};

// The replicas of the stored placement; none where no placement is stored.
pub fn stored_replicas(stored: Option<&DesiredReplicaPlacement>) -> &[DesiredReplica]
    ensures { result.now ≡ stored_replicas (option_map (λ q. q.now) stored.entry) }
{
    match stored {
        Some(q) => q.desired(),
        None => &[],
    }
}

// This very placement is stored.
// By `is_same` and no `==`, since sameness leaves out the places past a count.
pub fn is_stored(stored: Option<&DesiredReplicaPlacement>, p: &DesiredReplicaPlacement) -> bool
    ensures { result ≡ is_stored (option_map (λ q. q.now) stored.entry) p.now }
{
    stored.is_some_and(|q| q.is_same(p))
}

// A placement that is not stored yet needs a row beside the count that are.
pub fn judge_room(stored: Option<&DesiredReplicaPlacement>, count: usize) -> Result<(), Answer>
    ensures { Gives result (judge_room (option_map (λ q. q.now) stored.entry) count) }
{
    if stored.is_none() && TABLET_ROOM <= count {
        return Err(Answer::TableFull(TableKind::Tablets, TABLET_ROOM as u64));
    }
    Ok(())
}

// None stored: the epoch is 1; else one more than the stored one's.
pub fn judge_epoch(
    stored: Option<&DesiredReplicaPlacement>,
    p: &DesiredReplicaPlacement,
) -> Result<(), Answer>
    ensures { Gives result (judge_epoch_after (option_map (λ q. q.now) stored.entry) p.now) }
{
    let received = p.configuration_epoch;
    let Some(q) = stored else {
        if received == 1 {
            return Ok(());
        }
        return Err(Answer::InitialPlacementEpoch(p.tablet_id, received));
    };
    let Some(expected) = q.configuration_epoch.checked_add(1) else {
        return Err(Answer::PlacementEpochExhausted(p.tablet_id));
    };
    if received == expected {
        return Ok(());
    }
    Err(Answer::PlacementEpochMismatch(p.tablet_id, expected, received))
}

// The last of the old replicas with this number.
fn kept_replica(k: ReplicaId, old: &[DesiredReplica]) -> Option<&DesiredReplica>
    ensures { option_map (λ o. o.now) result ≡ kept_replica k.0 old.now }
{
    old.iter().rev().find(|o| o.replica_id == k)
}

// A replica that is kept stays on its node, and a voter stays one.
// The role is a byte, judged here and by reason 5: 0 is a Voter, 1 a Learner. An enum would be made only to be compared.
fn judge_kept(r: &DesiredReplica, kept: Option<&DesiredReplica>) -> Result<(), Answer>
    ensures { Gives result (judge_kept r.now (option_map (λ o. o.now) kept.entry)) }
{
    let Some(o) = kept else {
        return Ok(());
    };
    if o.node_id != r.node_id {
        return Err(Answer::ReplicaHostChanged(r.replica_id, o.node_id, r.node_id));
    }
    if o.role == 0 && r.role == 1 {
        return Err(Answer::UnsupportedVoterDemotion(r.replica_id));
    }
    Ok(())
}

#[tactic(auto, unfolding(metadata::specs::Placements::judge_kept_replicas), using(metadata::proofs::Each::each_rules))]
pub fn judge_kept_replicas(old: &[DesiredReplica], new: &[DesiredReplica]) -> Result<(), Answer>
    ensures { Gives result (judge_kept_replicas old.now new.now) }
{
    for r in new {
        judge_kept(r, kept_replica(r.replica_id, old))?;
    }
    Ok(())
}
