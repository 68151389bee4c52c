// Registering: a new node brings endpoints that no other has, a known one may only move on.
ghost use Rattle.metadata.specs.Answers.{Gives};
ghost use Rattle.metadata.specs.Nodes.{judge_new_node, judge_registering};
ghost use Rattle.nodes.specs.Steps.{judge_known_row};
ghost use Rattle.rows.specs.Rows.{node_rows, tablet_rows, placement_rows};

use crate::clashes::clash;
use crate::lifecycle::judge_move;
use metadata::{Answer, NODE_ROOM, NodeDescriptor, TableKind};
use rows::{NodeBytes, Nodes, PlacementBytes, TabletBytes};
use tables::get;

// In refusal 15, where a node that is new comes from: document 01's number, of no lifecycle.
const UNREGISTERED: u8 = 5;

// A node whose id is new: its endpoints clash with none, it is Active, and a row is left.
#[tactic(auto, unfolding(metadata::specs::Nodes::judge_new_node, metadata::specs::Answers::answer_if, metadata::specs::Answers::and_then))]
pub fn judge_new_node(nodes: &[NodeBytes], n: &NodeDescriptor) -> Result<(), Answer>
    ensures { Gives result (judge_new_node (node_rows nodes.now) n.now) }
{
    if let Some(c) = clash(n, nodes) {
        return Err(Answer::NodeEndpointConflict(c.node_id, n.node_id, c.field));
    }
    if !n.is_active() {
        return Err(Answer::InvalidNodeLifecycleTransition(n.node_id, UNREGISTERED, n.lifecycle));
    }
    if NODE_ROOM <= nodes.len() {
        return Err(Answer::TableFull(TableKind::Nodes, NODE_ROOM as u64));
    }
    Ok(())
}

// A node that is known, against its row: the same record, another directory, or a move.
#[tactic(auto, unfolding(crate::specs::Steps::judge_known_row, metadata::specs::Answers::answer_if, metadata::specs::Answers::and_then))]
fn judge_known_node(
    old: &NodeDescriptor,
    tablets: &[TabletBytes],
    placements: &[PlacementBytes],
    n: &NodeDescriptor,
) -> Result<(), Answer>
    ensures { Gives result (judge_known_row old.now (tablet_rows tablets.now) (placement_rows placements.now) n.now) }
{
    if old.is_same(n) {
        return Err(Answer::AlreadyApplied);
    }
    if !old.same_directory(n) {
        return Err(Answer::NodeIdConflict(n.node_id));
    }
    judge_move(old.lifecycle, tablets, placements, n.node_id, n.lifecycle)
}

// By its id: a node that is known, or a new one.
#[tactic(auto, unfolding(metadata::specs::Nodes::judge_registering, metadata::specs::Nodes::judge_known_node, metadata::specs::Nodes::judge_lifecycle, crate::specs::Steps::judge_known_row, crate::specs::Steps::judge_move, metadata::specs::Answers::answer_if, metadata::specs::Answers::and_then))]
pub fn judge_registering(
    nodes: &[NodeBytes],
    tablets: &[TabletBytes],
    placements: &[PlacementBytes],
    n: &NodeDescriptor,
) -> Result<(), Answer>
    ensures { Gives result (judge_registering (node_rows nodes.now) (tablet_rows tablets.now) (placement_rows placements.now) n.now) }
{
    match get::<Nodes>(nodes, n.node_id) {
        Some(old) => judge_known_node(&old, tablets, placements, n),
        None => judge_new_node(nodes, n),
    }
}
