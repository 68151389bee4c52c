#![tactic(auto)]

// The first choice: up to three Active nodes, each time the one whose labels add most to those of the nodes chosen before it.
ghost use Rattle.choice.specs.Gains.{Gains, node_in, best_in};
ghost use Rattle.laws.specs.Lists.{any};
ghost use Rattle.metadata.specs.Answers.{is_applied};
ghost use Rattle.metadata.specs.Labels.{beats, best_of, better, candidate, choose, id_at, judge_picking, locality_gain, policy_of, select_initial_placement, step_best};
ghost use Rattle.metadata.specs.declared.NodeDescriptor.{NodeDescriptor};
ghost use Rattle.rows.specs.Rows.{node_row, node_rows};
ghost use Rattle.std.specs.Option.{option_map};
ghost use Rattle.std.specs.Prelude.{◌≡◌, ◌≤◌, List, [], ◌∷◌, false, None, IfSome, eqb, length, map};

use labels::{NodeList, distinct, new_label};
use metadata::{
    Answer, Domain, INITIAL_REPLICATION_FACTOR, InitialPlacement, NodeId, PlacementPolicy,
    REPLICA_ROOM,
};
use rows::{BLANK_NODE, NodeBytes, is_active, node_id};
use text::Optional;

// The nodes chosen so far, in order of choice.
type Chosen<'a> = NodeList<'a, INITIAL_REPLICATION_FACTOR>;

// A node, with what its labels add to those of the chosen nodes: that is counted once, however many nodes it is then held against.
#[derive(Clone, Copy)]
struct Candidate<'a> {
    node: &'a NodeBytes,
    gain: usize,
}

fn contains(chosen: &[&NodeBytes], id: NodeId) -> bool
    ensures { result ≡ any (λ n. eqb (node_row n.now).node_id.0 id.0) chosen.now }
{
    chosen.iter().any(|n| node_id(n) == id)
}

// 0 to 3: what the node's labels add to those of the chosen nodes.
#[tactic(auto, unfolding(metadata::specs::Labels::locality_gain))]
fn locality_gain(chosen: &[&NodeBytes], n: &NodeBytes) -> usize
    ensures { result ≡ locality_gain (map (λ n. node_row n.now) chosen.now) (node_row n.now) }
{
    new_label(Domain::Region, n, chosen)
        + new_label(Domain::Zone, n, chosen)
        + new_label(Domain::Rack, n, chosen)
}

// Active, and not chosen yet.
#[tactic(auto, unfolding(metadata::specs::Labels::candidate))]
fn is_candidate(chosen: &[&NodeBytes], n: &NodeBytes) -> bool
    ensures { result ≡ candidate (map (λ n. node_row n.now) chosen.now) (node_row n.now) }
{
    is_active(n) && !contains(chosen, node_id(n))
}

// The higher gain, and the lower id on a tie.
fn is_better(a: Candidate, b: Candidate) -> bool
    ensures { (chosen : List NodeDescriptor) → Gains chosen a.entry → Gains chosen b.entry → result ≡ better chosen (node_in a.entry) (node_in b.entry) }
{
    b.gain < a.gain || b.gain == a.gain && node_id(a.node) < node_id(b.node)
}

// Any node is better than none.
fn beats(best: Option<Candidate>, n: Candidate) -> bool
    ensures { (chosen : List NodeDescriptor) → IfSome best.entry (Gains chosen) → Gains chosen n.entry → result ≡ beats chosen (best_in best.entry) (node_in n.entry) }
{
    match best {
        Some(b) => is_better(n, b),
        None => true,
    }
}

// The best so far, after one more node.
#[tactic(auto, unfolding(metadata::specs::Labels::step_best))]
fn step_best<'a>(
    chosen: &[&NodeBytes],
    best: Option<Candidate<'a>>,
    n: &'a NodeBytes,
) -> Option<Candidate<'a>>
    requires { IfSome best (Gains (map (λ n. node_row n.now) chosen.now)) }
    ensures node { best_in result ≡ step_best (map (λ n. node_row n.now) chosen.now) (best_in best.entry) (node_row n.now) }
    ensures gain { IfSome result (Gains (map (λ n. node_row n.now) chosen.now)) }
{
    if !is_candidate(chosen, n) {
        return best;
    }
    let next = Candidate {
        node: n,
        gain: locality_gain(chosen, n),
    };
    if beats(best, next) { Some(next) } else { best }
}

// The best of the nodes that are not chosen yet, if there is one.
#[tactic(auto, unfolding(metadata::specs::Labels::best_of))]
fn best_of<'a>(chosen: &[&NodeBytes], nodes: &'a [NodeBytes]) -> Option<&'a NodeBytes>
    ensures { option_map (λ b. node_row b.now) result ≡ best_of (map (λ n. node_row n.now) chosen.now) None (node_rows nodes.now) }
{
    let mut best = None;
    for n in nodes {
        best = step_best(chosen, best, n);
    }
    Some(best?.node)
}

// Up to three Active nodes, each time the best; it ends where no node is left.
#[tactic(auto, using(crate::proofs::Picking::picking))]
fn choose(nodes: &[NodeBytes]) -> Chosen<'_>
    ensures { map (λ n. node_row n.now) result ≡ choose (node_rows nodes.now) }
{
    let mut chosen = NodeList::new(&BLANK_NODE);
    while !chosen.is_full() {
        let Some(n) = best_of(chosen.used(), nodes) else {
            return chosen;
        };
        chosen.push(n);
    }
    chosen
}

// The id of the chosen node at place i, 0 where none is: the answer has three places, and one that is empty is 0.
fn id_at(chosen: &[&NodeBytes], i: usize) -> NodeId
    ensures { result ≡ id_at (map (λ n. node_row n.now) chosen.now) i }
{
    match chosen.get(i) {
        Some(n) => node_id(n),
        None => NodeId(0),
    }
}

// Their ids, 0 in the places that are not filled.
fn ids_in(chosen: &[&NodeBytes]) -> [NodeId; INITIAL_REPLICATION_FACTOR]
    ensures { result ≡ id_at (map (λ n. node_row n.now) chosen.now) 0 ∷ id_at (map (λ n. node_row n.now) chosen.now) 1 ∷ id_at (map (λ n. node_row n.now) chosen.now) 2 ∷ [] }
{
    [id_at(chosen, 0), id_at(chosen, 1), id_at(chosen, 2)]
}

// As many copies and distinct labels as the chosen nodes give, no class and no leaders.
fn policy_of(chosen: &[&NodeBytes]) -> PlacementPolicy
    requires { length chosen.now ≤ INITIAL_REPLICATION_FACTOR }
    ensures { result ≡ policy_of (map (λ n. node_row n.now) chosen.now) }
{
    PlacementPolicy {
        replication_factor: chosen.len() as u32,
        min_distinct_regions: distinct(Domain::Region, chosen) as u32,
        min_distinct_zones: distinct(Domain::Zone, chosen) as u32,
        min_distinct_racks: distinct(Domain::Rack, chosen) as u32,
        required_storage_class: Optional::none(),
        preferred_leader_count: 0,
        preferred_leader_nodes: [NodeId(0); REPLICA_ROOM],
    }
}

#[tactic(auto, unfolding(metadata::specs::Labels::select_initial_placement))]
pub fn select_initial_placement(nodes: &[NodeBytes]) -> InitialPlacement
    ensures { result ≡ select_initial_placement (node_rows nodes.now) }
{
    let list = choose(nodes);
    let chosen = list.used();
    InitialPlacement {
        node_count: chosen.len() as u8,
        nodes: ids_in(chosen),
        placement_policy: policy_of(chosen),
    }
}

// The answer of picking, which changes nothing: it is never Applied, so there is no way on for a `Result` to tell.
#[tactic(auto, unfolding(metadata::specs::Labels::judge_picking, metadata::specs::Answers::answer_if, metadata::specs::Answers::and_then))]
pub fn judge_picking(nodes: &[NodeBytes]) -> Answer
    ensures answer { result ≡ judge_picking (node_rows nodes.now) }
    ensures refused { is_applied result ≡ false }
{
    let list = choose(nodes);
    let chosen = list.used();
    if chosen.is_empty() {
        return Answer::NoRegisteredNodes;
    }
    let [first, second, third] = ids_in(chosen);
    Answer::Picked(first, second, third)
}
