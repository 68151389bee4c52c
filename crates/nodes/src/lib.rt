#![tactic(auto)]

// The nodes of the store: the cluster's name, a node's lifecycle, registering.
mod clashes;
mod lifecycle;
mod naming;
mod registering;

pub use clashes::clash;
pub use lifecycle::{judge_lifecycle, lifecycle_can_advance, still_expected};
pub use naming::judge_naming;
pub use registering::{judge_new_node, judge_registering};
