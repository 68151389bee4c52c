// The line of a placement. Each piece says its own room, and is no `Display` (lib.rt says why).
ghost use Rattle.std.specs.Prelude.{◌≡◌, ◌+◌, ◌≤◌, ◌++◌};
ghost use Rattle.arrayvec.specs.ArrayString.{array_string_len};
ghost use Rattle.row_lines.specs.PlacementLines.{replica_text, node_number, minima_text, policy_text, replicas_text, placement_line};

use crate::pieces::put_three;
use crate::{DUMP_LINE_ROOM, Page, Printed, put_each};
use lines::{put_field, put_number};
use metadata::{DesiredReplica, DesiredReplicaPlacement, NodeId, PlacementPolicy};

impl Printed for NodeId {
    ghost room = { 21 };

    ghost text = { node_number };

    fn put(&self, out: &mut Page) {
        put_field(out, self.0);
    }
}

impl Printed for DesiredReplica {
    ghost room = { 63 };

    ghost text = { replica_text };

    #[tactic(auto, unfolding(crate::specs::PlacementLines::replica_text))]
    fn put(&self, out: &mut Page) {
        put_field(out, self.replica_id.0);
        out.push(':');
        put_number(out, self.node_id.0);
        out.push(':');
        put_number(out, u64::from(self.role));
    }
}

#[tactic(auto, unfolding(crate::specs::PlacementLines::replicas_text))]
fn put_replicas(out: &mut Page, p: &DesiredReplicaPlacement)
    requires { array_string_len out.old + 501 ≤ DUMP_LINE_ROOM }
    ensures text { out.new.bytes ≡ out.old.bytes ++ replicas_text p.now }
    ensures short { array_string_len out.new ≤ array_string_len out.old + 501 }
{
    out.push_str("placement");
    put_field(out, p.tablet_id.0);
    put_field(out, p.configuration_epoch);
    out.push_str(" replicas");
    put_each(out, p.desired());
}

#[tactic(auto, unfolding(crate::specs::PlacementLines::minima_text))]
fn put_minima(out: &mut Page, q: &PlacementPolicy)
    requires { array_string_len out.old + 98 ≤ DUMP_LINE_ROOM }
    ensures text { out.new.bytes ≡ out.old.bytes ++ minima_text q.now }
    ensures short { array_string_len out.new ≤ array_string_len out.old + 98 }
{
    out.push_str(" factor");
    put_field(out, u64::from(q.replication_factor));
    out.push_str(" minima");
    put_three(
        out,
        u64::from(q.min_distinct_regions),
        u64::from(q.min_distinct_zones),
        u64::from(q.min_distinct_racks),
    );
}

// As far as the leaders, which a placement lists and the first choice counts.
#[tactic(auto, unfolding(crate::specs::PlacementLines::policy_text))]
pub(crate) fn put_policy(out: &mut Page, q: &PlacementPolicy)
    requires { array_string_len out.old + 162 ≤ DUMP_LINE_ROOM }
    ensures text { out.new.bytes ≡ out.old.bytes ++ policy_text q.now }
    ensures short { array_string_len out.new ≤ array_string_len out.old + 162 }
{
    put_minima(out, q);
    out.push_str(" class");
    q.required_storage_class.put(out);
    out.push_str(" leaders");
}

// The longest line.
impl Printed for DesiredReplicaPlacement {
    ghost room = { 811 };

    ghost text = { placement_line };

    #[tactic(auto, unfolding(crate::specs::PlacementLines::placement_line, crate::specs::PlacementLines::leaders_text))]
    fn put(&self, out: &mut Page) {
        put_replicas(out, self);
        put_policy(out, &self.placement_policy);
        put_each(out, self.placement_policy.leaders());
        out.push('\n');
    }
}
