#![tactic(auto, unfolding(metadata::specs::Answers::answer_if, metadata::specs::Answers::and_then))]

// Failure domains (document 01, refusal 29).
ghost use Rattle.metadata.specs.Answers.{Gives};
ghost use Rattle.metadata.specs.Kinds.{label_of};
ghost use Rattle.metadata.specs.Labels.{distinct};
ghost use Rattle.metadata.specs.Placements.{judge_domain};
ghost use Rattle.placements.specs.Domains.{judge_spread};
ghost use Rattle.rows.specs.Rows.{node_row};
ghost use Rattle.std.specs.Prelude.{◌≡◌, map};

use labels::{NodeList, distinct_up_to};
use metadata::{Answer, Domain, PlacementPolicy, REPLICA_ROOM};

// No more labels are counted than are required: a count below that is the whole.
// `on` are the nodes of the replicas, as `judge_replicas` found them: each check is lent them, so that no node is looked up again.
fn judge_domain(
    domain: Domain,
    required: u32,
    on: &NodeList<'_, REPLICA_ROOM>,
) -> Result<(), Answer>
    ensures { Gives result (judge_domain domain required (distinct (map (label_of domain) (map (λ n. node_row n.now) on.now)))) }
{
    let observed = distinct_up_to(domain, on.used(), required as usize) as u32;
    if observed < required {
        return Err(Answer::PlacementDomainUnsatisfied(domain, required, observed));
    }
    Ok(())
}

// Regions, then zones, then racks.
#[tactic(auto, unfolding(crate::specs::Domains::judge_spread, metadata::specs::Answers::answer_if, metadata::specs::Answers::and_then))]
pub fn judge_domains(q: &PlacementPolicy, on: &NodeList<'_, REPLICA_ROOM>) -> Result<(), Answer>
    ensures { Gives result (judge_spread (map (λ n. node_row n.now) on.now) q.now) }
{
    judge_domain(Domain::Region, q.min_distinct_regions, on)?;
    judge_domain(Domain::Zone, q.min_distinct_zones, on)?;
    judge_domain(Domain::Rack, q.min_distinct_racks, on)
}
