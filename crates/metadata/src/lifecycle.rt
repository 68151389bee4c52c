// A node's lifecycles, and which moves are allowed.
ghost use Rattle.metadata.specs.Nodes.{lifecycle_can_advance};
ghost use Rattle.metadata.specs.Lifecycles.{lifecycle_of, number};
ghost use Rattle.std.specs.Prelude.{◌≡◌, eqb};

use crate::NodeDescriptor;

#[derive(Clone, Copy, PartialEq, Eq, Debug)]
pub enum NodeLifecycle {
    Active,
    Draining,
    Decommissioning,
    Decommissioned,
    Tombstoned,
}

impl NodeLifecycle {
    // The lifecycle with this number; none above 4.
    pub fn from_number(n: u8) -> Option<Self>
        ensures { result ≡ lifecycle_of n }
    {
        match n {
            0 => Some(NodeLifecycle::Active),
            1 => Some(NodeLifecycle::Draining),
            2 => Some(NodeLifecycle::Decommissioning),
            3 => Some(NodeLifecycle::Decommissioned),
            4 => Some(NodeLifecycle::Tombstoned),
            _ => None,
        }
    }

    // Only one step forward.
    #[tactic(auto, unfolding(crate::specs::Nodes::lifecycle_can_advance))]
    pub fn can_advance(self, to: Self) -> bool
        ensures { result ≡ lifecycle_can_advance (number self) (number to) }
    {
        match (self, to) {
            (NodeLifecycle::Active, NodeLifecycle::Draining) => true,
            (NodeLifecycle::Draining, NodeLifecycle::Decommissioning) => true,
            (NodeLifecycle::Decommissioning, NodeLifecycle::Decommissioned) => true,
            (NodeLifecycle::Decommissioned, NodeLifecycle::Tombstoned) => true,
            _ => false,
        }
    }
}

impl NodeDescriptor {
    pub fn is_active(&self) -> bool
        ensures { result ≡ eqb self.now.lifecycle 0 }
    {
        self.lifecycle == 0
    }
}
