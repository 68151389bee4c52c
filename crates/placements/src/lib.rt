#![tactic(auto)]

// Placement: where the copies of a tablet are to stand (document 01, port item 9).
ghost use Rattle.metadata.specs.Answers.{Gives};
ghost use Rattle.metadata.specs.Placements.{judge_placement};
ghost use Rattle.placements.specs.Stored.{stored_in, judge_new_after};
ghost use Rattle.rows.specs.Rows.{node_rows, tablet_rows, placement_rows, retirement_rows};
ghost use Rattle.std.specs.Option.{option_map};
ghost use Rattle.std.specs.Prelude.{◌≡◌};

mod changes;
mod copies;
mod domains;

use changes::{is_stored, judge_epoch, judge_kept_replicas, judge_room, stored_replicas};
use copies::{judge_leaders, judge_replicas};
use domains::judge_domains;
use metadata::{Answer, DesiredReplicaPlacement, RaftGroupId, TabletId};
use rows::{
    NodeBytes, PlacementBytes, Placements, RetirementBytes, TabletBytes, Tablets, group_of,
};

// The checks of a placement that is not the stored one, from top to bottom: in its tablet's group, beside the stored one, in a table of count placements.
#[tactic(auto, unfolding(metadata::specs::Answers::answer_if, metadata::specs::Answers::and_then), using(crate::proofs::Looked::domains_at))]
fn judge_new_placement(
    nodes: &[NodeBytes],
    retirements: &[RetirementBytes],
    group: RaftGroupId,
    stored: Option<&DesiredReplicaPlacement>,
    count: usize,
    p: &DesiredReplicaPlacement,
) -> Result<(), Answer>
    ensures { Gives result (judge_new_after (node_rows nodes.now) (retirement_rows retirements.now) group (option_map (λ q. q.now) stored.entry) count p.now) }
{
    let old = stored_replicas(stored);
    let on = judge_replicas(nodes, retirements, old, group, p)?;
    judge_leaders(nodes, &p.placement_policy)?;
    judge_domains(&p.placement_policy, &on)?;
    judge_epoch(stored, p)?;
    judge_kept_replicas(old, p.desired())?;
    judge_room(stored, count)
}

// The placement that is stored for the tablet, if any.
fn stored_placement(
    placements: &[PlacementBytes],
    tablet: TabletId,
) -> Option<DesiredReplicaPlacement>
    ensures { result ≡ stored_in tablet.0 (placement_rows placements.now) }
{
    tables::get::<Placements>(placements, tablet)
}

// 25 for a tablet that is not there; 1 for the placement that is stored already; else the checks of a new one. Each table is searched once, and what was found handed on.
// It is lent the tables that it reads, one by one: so its signature says which.
#[tactic(auto, unfolding(metadata::specs::Answers::answer_if, metadata::specs::Answers::and_then), using(crate::proofs::Looked::placed_at))]
pub fn judge_placement(
    nodes: &[NodeBytes],
    tablets: &[TabletBytes],
    placements: &[PlacementBytes],
    retirements: &[RetirementBytes],
    p: &DesiredReplicaPlacement,
) -> Result<(), Answer>
    ensures { Gives result (judge_placement (node_rows nodes.now) (tablet_rows tablets.now) (placement_rows placements.now) (retirement_rows retirements.now) p.now) }
{
    let Some(t) = tables::stored::<Tablets>(tablets, p.tablet_id) else {
        return Err(Answer::UnknownTablet(p.tablet_id));
    };
    let found = stored_placement(placements, p.tablet_id);
    let stored = found.as_ref();
    if is_stored(stored, p) {
        return Err(Answer::AlreadyApplied);
    }
    let count = placements.len();
    judge_new_placement(nodes, retirements, group_of(t), stored, count, p)
}
