#![tactic(auto)]

// Where each copy and each preferred leader of a tablet may stand (document 01, refusals 17 and 26 to 28).
ghost use Rattle.metadata.specs.Answers.{Gives, each};
ghost use Rattle.metadata.specs.Placements.{stands_already, eligible, class_differs, judge_replica, judge_leader, hosts};
ghost use Rattle.metadata.specs.Tables.{node_of, desired, leaders};
ghost use Rattle.placements.specs.HandsOn.{HandsOn};
ghost use Rattle.rows.specs.Rows.{node_row, node_rows, retirement_rows};
ghost use Rattle.std.specs.Prelude.{◌≡◌, map};

use labels::NodeList;
use metadata::{
    Answer, DesiredReplica, DesiredReplicaPlacement, NodeId, NodeLifecycle, OptionalLabel,
    PlacementPolicy, REPLICA_ROOM, RaftGroupId,
};
use retirements::is_replica_retired;
use rows::{BLANK_NODE, NodeBytes, Nodes, RetirementBytes, is_active, lifecycle, storage_class};
use tables::stored;

// The same replica stands on the same node already.
#[tactic(auto, unfolding(metadata::specs::Placements::stands_already))]
fn stands_already(r: &DesiredReplica, old: &[DesiredReplica]) -> bool
    ensures { result ≡ stands_already r.now old.now }
{
    old.iter()
        .any(|o| o.replica_id == r.replica_id && o.node_id == r.node_id)
}

// Active, or Draining or Decommissioning if the replica stands there already. The lifecycle is a row's byte, and one that is none is not eligible.
#[tactic(auto, unfolding(metadata::specs::Placements::eligible))]
fn eligible(lifecycle: u8, stands: bool) -> bool
    ensures { result ≡ eligible lifecycle stands }
{
    match NodeLifecycle::from_number(lifecycle) {
        Some(NodeLifecycle::Active) => true,
        Some(NodeLifecycle::Draining | NodeLifecycle::Decommissioning) => stands,
        _ => false,
    }
}

// A required class that is present and not the node's.
#[tactic(auto, unfolding(metadata::specs::Placements::class_differs, text::specs::Texts::same_text))]
fn class_differs(class: &OptionalLabel, n: &NodeBytes) -> bool
    ensures { result ≡ class_differs class.now (node_row n.now) }
{
    class.present && storage_class(n) != class.text.text()
}

// 17, 26, 27 and 28, for one replica; `old` are the replicas of the stored placement. It hands on the replica's node, so that no one looks it up again.
#[tactic(auto, unfolding(metadata::specs::Placements::judge_replica, metadata::specs::Answers::answer_if, metadata::specs::Answers::and_then))]
fn judge_replica<'a>(
    nodes: &'a [NodeBytes],
    retirements: &[RetirementBytes],
    old: &[DesiredReplica],
    group: RaftGroupId,
    class: &OptionalLabel,
    r: &DesiredReplica,
) -> Result<&'a NodeBytes, Answer>
    ensures { HandsOn result (judge_replica (node_rows nodes.now) (retirement_rows retirements.now) old.now group class.now r.now) (λ n. node_row n.now ≡ node_of r.now.node_id.0 (node_rows nodes.now)) }
{
    let Some(n) = stored::<Nodes>(nodes, r.node_id) else {
        return Err(Answer::UnknownNode(r.node_id));
    };
    let lifecycle = lifecycle(n);
    if !eligible(lifecycle, stands_already(r, old)) {
        return Err(Answer::NodeNotEligible(r.node_id, lifecycle));
    }
    if class_differs(class, n) {
        return Err(Answer::PlacementStorageClassMismatch(r.node_id));
    }
    if is_replica_retired(retirements, group, r.replica_id) {
        return Err(Answer::RetiredReplicaReuse(group, r.replica_id));
    }
    Ok(n)
}

// 17 and 26, for one preferred leader: it is there, and Active.
#[tactic(auto, unfolding(metadata::specs::Placements::judge_leader, metadata::specs::Answers::answer_if, metadata::specs::Answers::and_then))]
fn judge_leader(nodes: &[NodeBytes], k: NodeId) -> Result<(), Answer>
    ensures { Gives result (judge_leader (node_rows nodes.now) k) }
{
    let Some(n) = stored::<Nodes>(nodes, k) else {
        return Err(Answer::UnknownNode(k));
    };
    if !is_active(n) {
        return Err(Answer::NodeNotEligible(k, lifecycle(n)));
    }
    Ok(())
}

#[tactic(auto, using(metadata::proofs::Each::each_rules))]
pub fn judge_leaders(nodes: &[NodeBytes], q: &PlacementPolicy) -> Result<(), Answer>
    ensures { Gives result (each (judge_leader (node_rows nodes.now)) (leaders q.now)) }
{
    for k in q.leaders() {
        judge_leader(nodes, *k)?;
    }
    Ok(())
}

// The same for each replica, in turn; their nodes are handed on in the order of the replicas.
#[tactic(auto, using(crate::proofs::Hosting::hosting))]
pub fn judge_replicas<'a>(
    nodes: &'a [NodeBytes],
    retirements: &[RetirementBytes],
    old: &[DesiredReplica],
    group: RaftGroupId,
    p: &DesiredReplicaPlacement,
) -> Result<NodeList<'a, REPLICA_ROOM>, Answer>
    ensures { HandsOn result (each (judge_replica (node_rows nodes.now) (retirement_rows retirements.now) old.now group p.now.placement_policy.required_storage_class) (desired p.now)) (λ on. map (λ n. node_row n.now) on ≡ hosts (node_rows nodes.now) (desired p.now)) }
{
    let mut on = NodeList::new(&BLANK_NODE);
    for r in p.desired() {
        let class = &p.placement_policy.required_storage_class;
        let n = judge_replica(nodes, retirements, old, group, class, r)?;
        on.push(n);
    }
    Ok(on)
}
