// An answer as document 01 prints it: its number and three operands. `report` is no `From`, which would not say that these are the numbers that are printed.
ghost use Rattle.metadata.specs.Answers.{is_applied, report, reported};
ghost use Rattle.std.specs.Prelude.{◌≡◌};

use crate::{Answer, Reported};

fn with_operands(number: u8, a: u64, b: u64, c: u64) -> Reported
    ensures { result ≡ report number a b c }
{
    Reported {
        number,
        operands: [a, b, c],
    }
}

impl Answer {
    // The number and the operands of an answer.
    pub fn report(self) -> Reported
        ensures { result ≡ reported self }
    {
        match self {
            Answer::Applied => with_operands(0, 0, 0, 0),
            Answer::AlreadyApplied => with_operands(1, 0, 0, 0),
            Answer::Picked(a, b, c) => with_operands(2, a.0, b.0, c.0),
            Answer::InvalidCommand(reason) => with_operands(10, u64::from(reason), 0, 0),
            Answer::NotInitialized => with_operands(11, 0, 0, 0),
            Answer::ClusterConflict => with_operands(12, 0, 0, 0),
            Answer::NodeIdConflict(node) => with_operands(13, node.0, 0, 0),
            Answer::NodeEndpointConflict(existing, new, field) => with_operands(
                14,
                existing.0,
                new.0,
                u64::from(field),
            ),
            Answer::InvalidNodeLifecycleTransition(node, from, to) => with_operands(
                15,
                node.0,
                u64::from(from),
                u64::from(to),
            ),
            Answer::NodeStillExpected(node, group, replica) => with_operands(
                16, node.0, group.0, replica.0,
            ),
            Answer::UnknownNode(node) => with_operands(17, node.0, 0, 0),
            Answer::TabletIdConflict(tablet) => with_operands(18, tablet.0, 0, 0),
            Answer::RaftGroupConflict(group) => with_operands(19, group.0, 0, 0),
            Answer::UnknownTable(table) => with_operands(20, table.0, 0, 0),
            Answer::PartitionCountMismatch(table, expected, received) => with_operands(
                21,
                table.0,
                u64::from(expected),
                u64::from(received),
            ),
            Answer::PartitionConflict(table, bucket) => with_operands(
                22,
                table.0,
                u64::from(bucket),
                0,
            ),
            Answer::TabletCountExceeded(table, limit) => with_operands(
                23,
                table.0,
                u64::from(limit),
                0,
            ),
            Answer::RangeOverlap(tablet) => with_operands(24, tablet.0, 0, 0),
            Answer::UnknownTablet(tablet) => with_operands(25, tablet.0, 0, 0),
            Answer::NodeNotEligible(node, lifecycle) => with_operands(
                26,
                node.0,
                u64::from(lifecycle),
                0,
            ),
            Answer::PlacementStorageClassMismatch(node) => with_operands(27, node.0, 0, 0),
            Answer::RetiredReplicaReuse(group, replica) => with_operands(28, group.0, replica.0, 0),
            Answer::PlacementDomainUnsatisfied(domain, required, observed) => with_operands(
                29,
                u64::from(domain.number()),
                u64::from(required),
                u64::from(observed),
            ),
            Answer::InitialPlacementEpoch(tablet, received) => with_operands(
                30, tablet.0, received, 0,
            ),
            Answer::PlacementEpochExhausted(tablet) => with_operands(31, tablet.0, 0, 0),
            Answer::PlacementEpochMismatch(tablet, expected, received) => with_operands(
                32, tablet.0, expected, received,
            ),
            Answer::ReplicaHostChanged(replica, old, new) => with_operands(
                33, replica.0, old.0, new.0,
            ),
            Answer::UnsupportedVoterDemotion(replica) => with_operands(34, replica.0, 0, 0),
            Answer::UnknownRaftGroup(group) => with_operands(35, group.0, 0, 0),
            Answer::RetirementStillDesired(group, replica) => with_operands(
                36, group.0, replica.0, 0,
            ),
            Answer::RetirementProofConflict(group, replica) => with_operands(
                37, group.0, replica.0, 0,
            ),
            Answer::NoRegisteredNodes => with_operands(38, 0, 0, 0),
            Answer::TableFull(kind, limit) => with_operands(39, u64::from(kind.number()), limit, 0),
            Answer::BadTape(fault, byte) => with_operands(
                40,
                u64::from(fault.number()),
                u64::from(byte),
                0,
            ),
        }
    }

    pub fn is_applied(self) -> bool
        ensures { result ≡ is_applied self }
    {
        self.report().number == 0
    }
}
