#![tactic(auto)]

// One row changed in the part of its table: a row more at its place, or another in the place of the one with its key. Without room nothing changes.
ghost use Rattle.changes.specs.Changes.{Added, Put, Moved, Registered};
ghost use Rattle.encode.specs.Widths.{table_width, tablet_width, placement_width, retirement_width, node_width};
ghost use Rattle.layout.specs.Places.{nodes_length, tables_length, tablets_length, placements_length, retirements_length};
ghost use Rattle.metadata.specs.Rooms.{node_room, table_room, tablet_room, retirement_room};
ghost use Rattle.metadata.specs.Sound.{sound_node, sound_placement};
ghost use Rattle.metadata.specs.Tables.{node_key, table_key, tablet_key, placement_key, retirement_key, with_lifecycle};
ghost use Rattle.rows.specs.Rows.{node_row, table_row, tablet_row, placement_row, retirement_row};
ghost use Rattle.std.specs.Prelude.{◌≡◌, true, length};

use decode::places::NODE_LIFECYCLE;
use encode::{
    NODE_BYTES, PLACEMENT_BYTES, RETIREMENT_BYTES, TABLE_BYTES, TABLET_BYTES, node_bytes,
    placement_bytes, retirement_bytes, table_bytes, tablet_bytes,
};
use metadata::{
    DesiredReplicaPlacement, NODE_ROOM, NodeDescriptor, NodeId, RETIREMENT_ROOM,
    RetiredReplicaLifetime, TABLE_ROOM, TABLET_ROOM, TableRow, TabletDescriptor,
};
use rows::{NodeBytes, Nodes, Placements, Retirements, Tables, Tablets};
use tables::{find, insert_row, place, replace_row, used};

// ---- the tables of the catalog

pub fn add_table(part: &mut [u8], t: &TableRow)
    requires { length part.old ≡ tables_length }
    ensures { Added table_key table_row table_width table_room t.now true part.old part.new }
{
    let at = place::<Tables>(used::<TABLE_BYTES>(part, TABLE_ROOM), t.table_id);
    insert_row(part, TABLE_ROOM, at, &table_bytes(t));
}

pub fn add_tablet(part: &mut [u8], t: &TabletDescriptor)
    requires { length part.old ≡ tablets_length }
    ensures { Added tablet_key tablet_row tablet_width tablet_room t.now true part.old part.new }
{
    let at = place::<Tablets>(used::<TABLET_BYTES>(part, TABLET_ROOM), t.tablet_id);
    insert_row(part, TABLET_ROOM, at, &tablet_bytes(t));
}

pub fn add_retirement(part: &mut [u8], x: &RetiredReplicaLifetime)
    requires { length part.old ≡ retirements_length }
    ensures { Added retirement_key retirement_row retirement_width retirement_room x.now true part.old part.new }
{
    let at = place::<Retirements>(used::<RETIREMENT_BYTES>(part, RETIREMENT_ROOM), x.key());
    insert_row(part, RETIREMENT_ROOM, at, &retirement_bytes(x));
}

// In the place of the placement of its tablet, or a row more.
pub fn put_placement(part: &mut [u8], p: &DesiredReplicaPlacement)
    requires { length part.old ≡ placements_length }
    ensures { Put placement_key placement_row placement_width tablet_room p.now (sound_placement p.now) part.old part.new }
{
    let row = placement_bytes(p);
    let rows = used::<PLACEMENT_BYTES>(part, TABLET_ROOM);
    match find::<Placements>(rows, p.tablet_id) {
        Some(at) => replace_row(part, TABLET_ROOM, at, &row),
        None => {
            let at = place::<Placements>(rows, p.tablet_id);
            insert_row(part, TABLET_ROOM, at, &row);
        }
    }
}

// ---- the nodes

fn moved(row: &NodeBytes, to: u8) -> NodeBytes
    ensures row { node_row result ≡ with_lifecycle (node_row row.now) to }
    ensures long { length result ≡ node_width }
{
    let mut next = *row;
    next[NODE_LIFECYCLE] = to;
    next
}

// `to` is the byte that the command brought and admission let through.
pub fn move_node(part: &mut [u8], k: NodeId, to: u8)
    requires { length part.old ≡ nodes_length }
    ensures { Moved k to part.old part.new }
{
    let rows = used::<NODE_BYTES>(part, NODE_ROOM);
    if let Some(at) = find::<Nodes>(rows, k) {
        let row = moved(&rows[at], to);
        replace_row(part, NODE_ROOM, at, &row);
    }
}

fn add_node(part: &mut [u8], n: &NodeDescriptor)
    requires { length part.old ≡ nodes_length }
    ensures { Added node_key node_row node_width node_room n.now (sound_node n.now) part.old part.new }
{
    let at = place::<Nodes>(used::<NODE_BYTES>(part, NODE_ROOM), n.node_id);
    insert_row(part, NODE_ROOM, at, &node_bytes(n));
}

// A known node moves on, a new one takes its place.
pub fn register_node(part: &mut [u8], n: &NodeDescriptor)
    requires { length part.old ≡ nodes_length }
    ensures { Registered n.now part.old part.new }
{
    let rows = used::<NODE_BYTES>(part, NODE_ROOM);
    match find::<Nodes>(rows, n.node_id) {
        Some(_) => move_node(part, n.node_id, n.lifecycle),
        None => add_node(part, n),
    }
}
