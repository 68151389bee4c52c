// The lines that are no row's: the name, the marks, the next replica and the first choice. Each says its own room, and is no `Display` (lib.rt says why).
ghost use Rattle.std.specs.Prelude.{◌≡◌, ◌+◌, ◌≤◌, ◌++◌, length, take};
ghost use Rattle.metadata.specs.Rooms.{initial_replication_factor};
ghost use Rattle.arrayvec.specs.ArrayString.{array_string_len};
ghost use Rattle.row_lines.specs.StoreLines.{name_line, marks_line, next_text, next_line, pick_line};

use crate::pieces::put_three;
use crate::placements::put_policy;
use crate::{DUMP_LINE_ROOM, Page, Printed, put_each};
use lines::put_field;
use metadata::{InitialPlacement, MetadataAllocatorState, NodeId, OptionalName};

// The cluster's name.
#[tactic(auto, unfolding(crate::specs::StoreLines::name_line))]
pub fn put_name(out: &mut Page, t: &OptionalName)
    requires { array_string_len out.old + 103 ≤ DUMP_LINE_ROOM }
    ensures text { out.new.bytes ≡ out.old.bytes ++ name_line t.now }
    ensures short { array_string_len out.new ≤ array_string_len out.old + 103 }
{
    out.push_str("name");
    t.put(out);
    out.push('\n');
}

#[tactic(auto, unfolding(crate::specs::StoreLines::marks_line))]
pub fn put_marks(out: &mut Page, m: &MetadataAllocatorState)
    requires { array_string_len out.old + 90 ≤ DUMP_LINE_ROOM }
    ensures text { out.new.bytes ≡ out.old.bytes ++ marks_line m.now }
    ensures short { array_string_len out.new ≤ array_string_len out.old + 90 }
{
    out.push_str("marks");
    put_three(out, m.max_table_id, m.max_tablet_id, m.max_raft_group_id);
    put_field(out, m.max_replica_id);
    out.push('\n');
}

#[tactic(auto, unfolding(crate::specs::StoreLines::next_text))]
fn put_next_text(out: &mut Page, m: &MetadataAllocatorState)
    requires { array_string_len out.old + 29 ≤ DUMP_LINE_ROOM }
    ensures text { out.new.bytes ≡ out.old.bytes ++ next_text m.now }
    ensures short { array_string_len out.new ≤ array_string_len out.old + 29 }
{
    out.push_str(" replica");
    match m.next_replica_id() {
        Some(id) => put_field(out, id.0),
        None => out.push_str(" -"),
    }
}

#[tactic(auto, unfolding(crate::specs::StoreLines::next_line))]
pub fn put_next(out: &mut Page, m: &MetadataAllocatorState)
    requires { array_string_len out.old + 34 ≤ DUMP_LINE_ROOM }
    ensures text { out.new.bytes ≡ out.old.bytes ++ next_line m.now }
    ensures short { array_string_len out.new ≤ array_string_len out.old + 34 }
{
    out.push_str("next");
    put_next_text(out, m);
    out.push('\n');
}

// The nodes that are picked: as many as the count says, and all where it says more.
fn picked(p: &InitialPlacement) -> &[NodeId]
    ensures value { result.now ≡ take p.now.node_count p.now.nodes }
    ensures within { length result.now ≤ initial_replication_factor }
{
    let nodes = &p.nodes[..];
    &nodes[..(p.node_count as usize).min(nodes.len())]
}

// The first choice.
#[tactic(auto, unfolding(crate::specs::StoreLines::pick_line, crate::specs::StoreLines::picked_text))]
pub fn put_pick(out: &mut Page, p: &InitialPlacement)
    requires { array_string_len out.old + 251 ≤ DUMP_LINE_ROOM }
    ensures text { out.new.bytes ≡ out.old.bytes ++ pick_line p.now }
    ensures short { array_string_len out.new ≤ array_string_len out.old + 251 }
{
    out.push_str("pick");
    if p.node_count == 0 {
        out.push_str(" -\n");
        return;
    }
    put_each(out, picked(p));
    put_policy(out, &p.placement_policy);
    put_field(out, u64::from(p.placement_policy.preferred_leader_count));
    out.push('\n');
}
