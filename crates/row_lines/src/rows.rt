// The line of a row of each table but the placements.
ghost use Rattle.std.specs.Prelude.{◌≡◌, ◌+◌, ◌≤◌, ◌++◌};
ghost use Rattle.arrayvec.specs.ArrayString.{array_string_len};
ghost use Rattle.row_lines.specs.RowLines.{endpoints, node_labels, node_line, completeness, table_line, partition_text, tablet_line, retired_line};

use crate::pieces::put_three;
use crate::{DUMP_LINE_ROOM, Page, Printed};
use lines::put_field;
use metadata::{NodeDescriptor, PartitionSpec, RetiredReplicaLifetime, TableRow, TabletDescriptor};

// The endpoints and the labels of a node: four calls each, alike in shape only. The fields have other types and rooms, so no loop over a list puts both.
#[tactic(auto, unfolding(crate::specs::RowLines::endpoints))]
fn put_endpoints(out: &mut Page, n: &NodeDescriptor)
    requires { array_string_len out.old + 392 ≤ DUMP_LINE_ROOM }
    ensures text { out.new.bytes ≡ out.old.bytes ++ endpoints n.now }
    ensures short { array_string_len out.new ≤ array_string_len out.old + 392 }
{
    n.raft_addr.put(out);
    n.snapshot_addr.put(out);
    n.sql_addr.put(out);
    n.admin_addr.put(out);
}

#[tactic(auto, unfolding(crate::specs::RowLines::node_labels))]
fn put_labels(out: &mut Page, n: &NodeDescriptor)
    requires { array_string_len out.old + 200 ≤ DUMP_LINE_ROOM }
    ensures text { out.new.bytes ≡ out.old.bytes ++ node_labels n.now }
    ensures short { array_string_len out.new ≤ array_string_len out.old + 200 }
{
    n.region.put(out);
    n.zone.put(out);
    n.rack.put(out);
    n.storage_class.put(out);
}

impl Printed for NodeDescriptor {
    ghost room = { 639 };

    ghost text = { node_line };

    #[tactic(auto, unfolding(crate::specs::RowLines::node_line))]
    fn put(&self, out: &mut Page) {
        out.push_str("node");
        put_field(out, self.node_id.0);
        put_endpoints(out, self);
        put_labels(out, self);
        put_field(out, u64::from(self.lifecycle));
        out.push('\n');
    }
}

fn put_completeness(out: &mut Page, complete: bool)
    requires { array_string_len out.old + 13 ≤ DUMP_LINE_ROOM }
    ensures text { out.new.bytes ≡ out.old.bytes ++ completeness complete }
    ensures short { array_string_len out.new ≤ array_string_len out.old + 13 }
{
    if complete {
        out.push_str(" - complete");
    } else {
        out.push_str(" - incomplete");
    }
}

// Whether a table is complete is not in its row.
#[tactic(auto, unfolding(crate::specs::RowLines::table_line))]
pub fn put_table(out: &mut Page, t: &TableRow, complete: bool)
    requires { array_string_len out.old + 61 ≤ DUMP_LINE_ROOM }
    ensures text { out.new.bytes ≡ out.old.bytes ++ table_line complete t.now }
    ensures short { array_string_len out.new ≤ array_string_len out.old + 61 }
{
    out.push_str("table");
    put_field(out, t.table_id.0);
    put_field(out, u64::from(t.tablet_count));
    put_completeness(out, complete);
    out.push('\n');
}

// The kind is a byte, and any but 0 is printed as a range, as the definition has it: an enum of the two kinds would have no value for the others.
impl Printed for PartitionSpec {
    ghost room = { 138 };

    ghost text = { partition_text };

    #[tactic(auto, unfolding(crate::specs::RowLines::partition_text))]
    fn put(&self, out: &mut Page) {
        if self.kind == 0 {
            out.push_str(" hash");
            put_field(out, u64::from(self.bucket));
            put_field(out, u64::from(self.bucket_count));
        } else {
            out.push_str(" range");
            self.start_key.put(out);
            self.end_key.put(out);
        }
    }
}

impl Printed for TabletDescriptor {
    ghost room = { 229 };

    ghost text = { tablet_line };

    #[tactic(auto, unfolding(crate::specs::RowLines::tablet_line))]
    fn put(&self, out: &mut Page) {
        out.push_str("tablet");
        put_three(out, self.tablet_id.0, self.table_id.0, self.raft_group_id.0);
        put_field(out, self.tablet_epoch);
        self.partition.put(out);
        out.push('\n');
    }
}

impl Printed for RetiredReplicaLifetime {
    ghost room = { 134 };

    ghost text = { retired_line };

    #[tactic(auto, unfolding(crate::specs::RowLines::retired_line))]
    fn put(&self, out: &mut Page) {
        out.push_str("retired");
        put_three(
            out,
            self.raft_group_id.0,
            self.replica_id.0,
            self.desired_configuration_epoch,
        );
        put_three(
            out,
            self.removed_conf_state_version,
            self.removal_index,
            self.removal_term,
        );
        out.push('\n');
    }
}
