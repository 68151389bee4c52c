// Lifecycle: a node moves one step forward at a time, and leaves only when no tablet expects it.
ghost use Rattle.metadata.specs.Answers.{Gives, each};
ghost use Rattle.metadata.specs.Nodes.{lifecycle_can_advance, expected_at, still_expected, judge_lifecycle};
ghost use Rattle.metadata.specs.Tables.{desired};
ghost use Rattle.nodes.specs.Steps.{expected_of, leaves, judge_move};
ghost use Rattle.rows.specs.Rows.{node_rows, tablet_row, tablet_rows, placement_rows};
ghost use Rattle.std.specs.Prelude.{◌≡◌};

use metadata::{Answer, DesiredReplica, DesiredReplicaPlacement, NodeId, NodeLifecycle};
use rows::{
    NodeBytes, Nodes, PlacementBytes, Placements, TabletBytes, group_of, lifecycle, tablet_id,
};
use tables::{get, stored};

// `from` and `to` are the bytes that rows and commands hold; what is no lifecycle is answered, and not ruled out by a type.
// Only one step forward; no move from or to what is no lifecycle.
#[tactic(auto, using(crate::proofs::Advance::by_lifecycles))]
pub fn lifecycle_can_advance(from: u8, to: u8) -> bool
    ensures { result ≡ lifecycle_can_advance from to }
{
    match (
        NodeLifecycle::from_number(from),
        NodeLifecycle::from_number(to),
    ) {
        (Some(a), Some(b)) => a.can_advance(b),
        _ => false,
    }
}

// A node leaves where it is Decommissioned or Tombstoned: then no tablet may expect it.
fn leaves(to: u8) -> bool
    ensures { result ≡ leaves to }
{
    matches!(
        NodeLifecycle::from_number(to),
        Some(NodeLifecycle::Decommissioned | NodeLifecycle::Tombstoned)
    )
}

// The copy does not stand on the node.
#[tactic(auto, unfolding(metadata::specs::Answers::answer_if))]
fn expected_on(k: NodeId, t: &TabletBytes, r: &DesiredReplica) -> Result<(), Answer>
    ensures { Gives result (expected_at k (tablet_row t.now) r.now) }
{
    if r.node_id == k {
        return Err(Answer::NodeStillExpected(k, group_of(t), r.replica_id));
    }
    Ok(())
}

// No copy of the placement stands on the node.
#[tactic(auto, using(metadata::proofs::Each::each_rules))]
fn expected_in(k: NodeId, t: &TabletBytes, p: &DesiredReplicaPlacement) -> Result<(), Answer>
    ensures { Gives result (each (expected_at k (tablet_row t.now)) (desired p.now)) }
{
    for r in p.desired() {
        expected_on(k, t, r)?;
    }
    Ok(())
}

// No copy of the tablet stands on the node; without a placement there is none.
#[tactic(auto, unfolding(crate::specs::Steps::expected_of, metadata::specs::Answers::each), using(laws::proofs::KeyedLaws::row_absent))]
fn expected_of(k: NodeId, t: &TabletBytes, placements: &[PlacementBytes]) -> Result<(), Answer>
    ensures { Gives result (expected_of k (placement_rows placements.now) (tablet_row t.now)) }
{
    match get::<Placements>(placements, tablet_id(t)) {
        Some(p) => expected_in(k, t, &p),
        None => Ok(()),
    }
}

// No copy stands on the node: asked by tablet id, then in the placement's order.
#[tactic(auto, using(metadata::proofs::Each::each_rules, crate::proofs::Expected::by_tablet))]
pub fn still_expected(
    k: NodeId,
    tablets: &[TabletBytes],
    placements: &[PlacementBytes],
) -> Result<(), Answer>
    ensures { Gives result (still_expected k (tablet_rows tablets.now) (placement_rows placements.now)) }
{
    for t in tablets {
        expected_of(k, t, placements)?;
    }
    Ok(())
}

// Whether a node that is known may move there, by its lifecycle; who expects it is asked only where it leaves.
// `k` and `to` are the operands of the command, here and below; registering brings them in a row.
#[tactic(auto, unfolding(crate::specs::Steps::judge_move, metadata::specs::Answers::answer_if, metadata::specs::Answers::and_then))]
pub fn judge_move(
    from: u8,
    tablets: &[TabletBytes],
    placements: &[PlacementBytes],
    k: NodeId,
    to: u8,
) -> Result<(), Answer>
    ensures { Gives result (judge_move from (tablet_rows tablets.now) (placement_rows placements.now) k to) }
{
    if from == to {
        return Err(Answer::AlreadyApplied);
    }
    if !lifecycle_can_advance(from, to) {
        return Err(Answer::InvalidNodeLifecycleTransition(k, from, to));
    }
    if leaves(to) {
        return still_expected(k, tablets, placements);
    }
    Ok(())
}

// The same by its id.
// A check is lent the tables that it reads, one by one: a struct of all four would hide which it reads.
#[tactic(auto, unfolding(metadata::specs::Nodes::judge_lifecycle, crate::specs::Steps::judge_move, metadata::specs::Answers::answer_if, metadata::specs::Answers::and_then))]
pub fn judge_lifecycle(
    nodes: &[NodeBytes],
    tablets: &[TabletBytes],
    placements: &[PlacementBytes],
    k: NodeId,
    to: u8,
) -> Result<(), Answer>
    ensures { Gives result (judge_lifecycle (node_rows nodes.now) (tablet_rows tablets.now) (placement_rows placements.now) k to) }
{
    let Some(old) = stored::<Nodes>(nodes, k) else {
        return Err(Answer::UnknownNode(k));
    };
    judge_move(lifecycle(old), tablets, placements, k, to)
}
