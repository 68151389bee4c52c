// The reasons of registering a node and of moving one on.
ghost use Rattle.std.specs.Prelude.{◌≡◌};
ghost use Rattle.laws.specs.Lists.{every, none_twice};
ghost use Rattle.metadata.specs.Texts.{endpoint_admitted, same_name};
ghost use Rattle.metadata.specs.Tables.{endpoints};
ghost use Rattle.metadata.specs.Commands.{lowest, node_faults, lifecycle_faults, node_texts_admitted};
ghost use Rattle.admission.specs.Reasons.{reason_of};

use crate::reasons::Reason;
use crate::texts::{endpoint_admitted, label_admitted, optional_admitted};
use lists::none_twice;
use metadata::{NodeDescriptor, NodeId};

// Reason 5: "lifecycle above 4". A byte is compared, since a command may bring any.
const LAST_LIFECYCLE: u8 = 4;

fn endpoints_admitted(n: &NodeDescriptor) -> bool
    ensures { result ≡ every endpoint_admitted (endpoints n.now) }
{
    endpoint_admitted(&n.raft_addr)
        && endpoint_admitted(&n.snapshot_addr)
        && endpoint_admitted(&n.sql_addr)
        && endpoint_admitted(&n.admin_addr)
}

// Reason 2 does not apply to a node.
#[tactic(auto, unfolding(metadata::specs::Commands::node_texts_admitted, laws::specs::Tests::all_of))]
pub fn node_texts_admitted(n: &NodeDescriptor) -> bool
    ensures { result ≡ node_texts_admitted n.now }
{
    endpoints_admitted(n)
        && optional_admitted(&n.region)
        && optional_admitted(&n.zone)
        && optional_admitted(&n.rack)
        && label_admitted(&n.storage_class)
}

// Reason 3 does not apply: no endpoint stands in two fields.
pub fn endpoints_differ(n: &NodeDescriptor) -> bool
    ensures { result ≡ none_twice same_name (endpoints n.now) }
{
    let endpoints = [&n.raft_addr, &n.snapshot_addr, &n.sql_addr, &n.admin_addr];
    none_twice(&endpoints, |a, b| a == b)
}

pub fn admit_node(n: &NodeDescriptor) -> Result<(), Reason>
    ensures { reason_of result ≡ lowest (node_faults n.now) }
{
    if n.node_id.is_zero() {
        return Err(Reason::ZeroId);
    }
    if !node_texts_admitted(n) {
        return Err(Reason::Text);
    }
    if !endpoints_differ(n) {
        return Err(Reason::EqualEndpoints);
    }
    if n.storage_class.is_blank() {
        return Err(Reason::BlankClass);
    }
    if LAST_LIFECYCLE < n.lifecycle {
        return Err(Reason::UnknownVariant);
    }
    Ok(())
}

// Any byte may come as a lifecycle, and 4 is the last that document 01 admits; a type that held no other could not be refused by a reason.
pub fn admit_lifecycle(k: NodeId, to: u8) -> Result<(), Reason>
    ensures { reason_of result ≡ lowest (lifecycle_faults k to) }
{
    if k.is_zero() {
        return Err(Reason::ZeroId);
    }
    if LAST_LIFECYCLE < to {
        return Err(Reason::UnknownVariant);
    }
    Ok(())
}
