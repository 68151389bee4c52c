#![tactic(auto, unfolding(laws::specs::Tests::all_of), using(layout::proofs::Parts::head_length))]

// Reason 12: whether a block of bytes is a store that is sound: as long as a store is, its tables tidy, its rows rising, its padding zero, no id above its mark.
// A text is judged where it stands, so that no row is read for its texts.
ghost use Rattle.decode.specs.Decode.{text_at, optional_text_at};
ghost use Rattle.encode.specs.Widths.{table_width, tablet_width, placement_width, retirement_width};
ghost use Rattle.laws.specs.Lists.{every};
ghost use Rattle.laws.specs.Tests.{all_of};
ghost use Rattle.layout.specs.Layout.{directory_of, catalog_of, tables_part, tablets_part, placements_part, retirements_part, tidy_directory, tidy_catalog, sound};
ghost use Rattle.layout.specs.Places.{directory_length, catalog_length, store_length};
ghost use Rattle.metadata.specs.Rooms.{table_room, tablet_room, retirement_room, label_width};
ghost use Rattle.metadata.specs.Sound.{sound_node, sound_tablet, sound_placement, replicas_below, sound_directory, sound_catalog};
ghost use Rattle.metadata.specs.Tables.{endpoints};
ghost use Rattle.metadata.specs.Texts.{name_fits, label_fits};
ghost use Rattle.rows.specs.Rows.{node_row, table_rows, tablet_row, tablet_rows, placement_row, placement_rows, retirement_rows, node_rows};
ghost use Rattle.soundness.specs.Counts.{replicas_sound, leaders_sound, numbers_sound};
ghost use Rattle.std.specs.Prelude.{◌≡◌, ◌+◌, ◌≤◌, ◌&&◌, [], ◌∷◌, leb, length};
ghost use Rattle.tables.specs.Rows.{tidy};
ghost use Rattle.text.specs.Texts.{fits, optional_fits};

use admission::no_host_twice;
use decode::places::{
    NODE_ADMIN, NODE_CLASS, NODE_RACK, NODE_RAFT, NODE_REGION, NODE_SNAPSHOT, NODE_SQL, NODE_ZONE,
    PLACEMENT_CLASS, TABLET_END, TABLET_START,
};
use encode::{NODE_BYTES, PLACEMENT_BYTES, RETIREMENT_BYTES, TABLE_BYTES, TABLET_BYTES};
use layout::{MARKS, NODES, PLACEMENTS, RETIREMENTS, STORE_BYTES, TABLETS};
use metadata::{
    DesiredReplicaPlacement, KEY_WIDTH, LABEL_WIDTH, MetadataAllocatorState, NAME_WIDTH, NODE_ROOM,
    OptionalName, PlacementPolicy, REPLICA_ROOM, RETIREMENT_ROOM, TABLE_ROOM, TABLET_ROOM,
};
use numbers::number8;
use rows::{
    NodeBytes, Nodes, PlacementBytes, Placements, RetirementBytes, Retirements, TableBytes, Tables,
    TabletBytes, Tablets, group_of, tablet_id,
};
use tables::{Table, all, is_table, is_tidy, words_clear};

// ---- a text where it stands: its length within the width, zeros behind it

#[tactic(auto, unfolding(text::specs::Texts::fits), using(crate::proofs::Padding::padding_there))]
fn text_fits<const N: usize>(row: &[u8], at: usize) -> bool
    requires { at + 1 + N ≤ length row.now }
    ensures { result ≡ fits N (text_at {n = N} row.now at).len (text_at {n = N} row.now at).bytes }
{
    let len = row[at] as usize;
    len <= N && words_clear(&row[at + 1 + len..at + 1 + N])
}

// Length 255 means absent.
const ABSENT: u8 = 255;

// Of an absent label the whole field is padding.
#[tactic(auto, unfolding(text::specs::Texts::fits, text::specs::Texts::optional_fits))]
fn optional_fits(row: &[u8], at: usize) -> bool
    requires { at + 1 + label_width ≤ length row.now }
    ensures { result ≡ optional_fits (optional_text_at {n = label_width} row.now at) }
{
    if row[at] == ABSENT {
        return words_clear(&row[at + 1..at + 1 + LABEL_WIDTH]);
    }
    text_fits::<LABEL_WIDTH>(row, at)
}

// ---- a row: lengths and counts within the room, padding and unused places zero, no node twice in one placement

fn endpoints_fit(row: &NodeBytes) -> bool
    ensures { result ≡ every name_fits (endpoints (node_row row.now)) }
{
    text_fits::<NAME_WIDTH>(row, NODE_RAFT)
        && text_fits::<NAME_WIDTH>(row, NODE_SNAPSHOT)
        && text_fits::<NAME_WIDTH>(row, NODE_SQL)
        && text_fits::<NAME_WIDTH>(row, NODE_ADMIN)
}

// Region, zone, rack, class.
fn labels_fit(row: &NodeBytes) -> bool
    ensures { result ≡ all_of (optional_fits (node_row row.now).region ∷ optional_fits (node_row row.now).zone ∷ optional_fits (node_row row.now).rack ∷ label_fits (node_row row.now).storage_class ∷ []) }
{
    optional_fits(row, NODE_REGION)
        && optional_fits(row, NODE_ZONE)
        && optional_fits(row, NODE_RACK)
        && text_fits::<LABEL_WIDTH>(row, NODE_CLASS)
}

pub fn sound_node(row: &NodeBytes) -> bool
    ensures { result ≡ sound_node (node_row row.now) }
{
    endpoints_fit(row) && labels_fit(row)
}

#[tactic(auto, unfolding(laws::specs::Tests::all_of, metadata::specs::Sound::sound_tablet))]
pub fn sound_tablet(row: &TabletBytes) -> bool
    ensures { result ≡ sound_tablet (tablet_row row.now) }
{
    text_fits::<KEY_WIDTH>(row, TABLET_START) && text_fits::<KEY_WIDTH>(row, TABLET_END)
}

#[tactic(auto, unfolding(laws::specs::Tests::all_of, crate::specs::Counts::replicas_sound))]
fn replicas_sound(p: &DesiredReplicaPlacement) -> bool
    ensures { result ≡ replicas_sound p.now }
{
    (p.replica_count as usize) <= REPLICA_ROOM && p.is_padded() && no_host_twice(p.desired())
}

#[tactic(auto, unfolding(crate::specs::Counts::leaders_sound))]
fn leaders_sound(q: &PlacementPolicy) -> bool
    ensures { result ≡ leaders_sound q.now }
{
    (q.preferred_leader_count as usize) <= REPLICA_ROOM && q.is_padded()
}

#[tactic(auto, unfolding(crate::specs::Counts::numbers_sound))]
fn numbers_sound(p: &DesiredReplicaPlacement) -> bool
    ensures { result ≡ numbers_sound p.now }
{
    replicas_sound(p) && leaders_sound(&p.placement_policy)
}

// The numbers of a placement are read, since all of them are asked for.
pub fn sound_placement(row: &PlacementBytes) -> bool
    ensures { result ≡ sound_placement (placement_row row.now) }
{
    numbers_sound(&Placements::read(row)) && optional_fits(row, PLACEMENT_CLASS)
}

// The desired copies of a placement lie no higher than the mark.
fn replicas_below(p: &DesiredReplicaPlacement, mark: u64) -> bool
    ensures { result ≡ replicas_below mark p.now }
{
    p.desired().iter().all(|r| r.replica_id.0 <= mark)
}

fn is_below(row: &PlacementBytes, mark: u64) -> bool
    ensures { result ≡ replicas_below mark (placement_row row.now) }
{
    replicas_below(&Placements::read(row), mark)
}

// ---- the rows of a table

fn nodes_sound(nodes: &[NodeBytes]) -> bool
    ensures { result ≡ every sound_node (node_rows nodes.now) }
{
    all::<Nodes, _>(nodes, |n| sound_node(n))
}

fn tablets_sound(tablets: &[TabletBytes]) -> bool
    ensures { result ≡ every sound_tablet (tablet_rows tablets.now) }
{
    all::<Tablets, _>(tablets, |t| sound_tablet(t))
}

fn placements_sound(placements: &[PlacementBytes]) -> bool
    ensures { result ≡ every sound_placement (placement_rows placements.now) }
{
    all::<Placements, _>(placements, |p| sound_placement(p))
}

// ---- the marks: no id lies above its mark

// A function each: a generic one would be given where the id stands, and be no shorter.
fn tables_below(tables: &[TableBytes], mark: u64) -> bool
    ensures { result ≡ every (λ t. leb t.table_id.0 mark) (table_rows tables.now) }
{
    all::<Tables, _>(tables, |t| number8(t, 0) <= mark)
}

fn tablets_below(tablets: &[TabletBytes], mark: u64) -> bool
    ensures { result ≡ every (λ t. leb t.tablet_id.0 mark) (tablet_rows tablets.now) }
{
    all::<Tablets, _>(tablets, |t| tablet_id(t).0 <= mark)
}

fn groups_below(tablets: &[TabletBytes], mark: u64) -> bool
    ensures { result ≡ every (λ t. leb t.raft_group_id.0 mark) (tablet_rows tablets.now) }
{
    all::<Tablets, _>(tablets, |t| group_of(t).0 <= mark)
}

fn placements_below(placements: &[PlacementBytes], mark: u64) -> bool
    ensures { result ≡ every (replicas_below mark) (placement_rows placements.now) }
{
    all::<Placements, _>(placements, |p| is_below(p, mark))
}

// ---- the directory

#[tactic(auto, unfolding(laws::specs::Tests::all_of, metadata::specs::Sound::sound_directory))]
pub fn sound_directory(name: &OptionalName, nodes: &[NodeBytes]) -> bool
    ensures { result ≡ sound_directory (record { name = name.now; nodes = node_rows nodes.now }) }
{
    name.fits() && is_table::<Nodes>(nodes, NODE_ROOM) && nodes_sound(nodes)
}

fn directory_tidy(directory: &[u8]) -> bool
    requires { length directory.now ≡ directory_length }
    ensures { result ≡ tidy_directory directory.now }
{
    is_tidy(&directory[NODES..], NODE_ROOM, NODE_BYTES)
}

fn directory_sound(directory: &[u8]) -> bool
    requires { length directory.now ≡ directory_length }
    ensures { result ≡ (tidy_directory directory.now && sound_directory (directory_of directory.now)) }
{
    directory_tidy(directory) && sound_directory(&layout::name(directory), layout::nodes(directory))
}

// ---- the catalog

// The tables and the tablets.
fn tablets_tidy(catalog: &[u8]) -> bool
    requires { length catalog.now ≡ catalog_length }
    ensures { result ≡ (tidy table_width table_room (tables_part catalog.now) && tidy tablet_width tablet_room (tablets_part catalog.now)) }
{
    is_tidy(catalog.split_at(TABLETS).0, TABLE_ROOM, TABLE_BYTES)
        && is_tidy(&catalog[TABLETS..PLACEMENTS], TABLET_ROOM, TABLET_BYTES)
}

// The placements and the retirements.
fn placements_tidy(catalog: &[u8]) -> bool
    requires { length catalog.now ≡ catalog_length }
    ensures { result ≡ (tidy placement_width tablet_room (placements_part catalog.now) && tidy retirement_width retirement_room (retirements_part catalog.now)) }
{
    is_tidy(
        &catalog[PLACEMENTS..RETIREMENTS],
        TABLET_ROOM,
        PLACEMENT_BYTES,
    ) && is_tidy(
        &catalog[RETIREMENTS..MARKS],
        RETIREMENT_ROOM,
        RETIREMENT_BYTES,
    )
}

fn catalog_tidy(catalog: &[u8]) -> bool
    requires { length catalog.now ≡ catalog_length }
    ensures { result ≡ tidy_catalog catalog.now }
{
    tablets_tidy(catalog) && placements_tidy(catalog)
}

#[tactic(auto, unfolding(laws::specs::Tests::all_of, metadata::specs::Sound::sound_marks, metadata::specs::Sound::sound_catalog))]
pub fn sound_catalog(
    tables: &[TableBytes],
    tablets: &[TabletBytes],
    placements: &[PlacementBytes],
    retirements: &[RetirementBytes],
    marks: &MetadataAllocatorState,
) -> bool
    ensures { result ≡ sound_catalog (record { tables = table_rows tables.now; tablets = tablet_rows tablets.now; placements = placement_rows placements.now; retirements = retirement_rows retirements.now; marks = marks.now }) }
{
    is_table::<Tables>(tables, TABLE_ROOM)
        && is_table::<Tablets>(tablets, TABLET_ROOM)
        && tablets_sound(tablets)
        && is_table::<Placements>(placements, TABLET_ROOM)
        && placements_sound(placements)
        && is_table::<Retirements>(retirements, RETIREMENT_ROOM)
        && tables_below(tables, marks.max_table_id)
        && tablets_below(tablets, marks.max_tablet_id)
        && groups_below(tablets, marks.max_raft_group_id)
        && placements_below(placements, marks.max_replica_id)
}

fn catalog_sound(catalog: &[u8]) -> bool
    requires { length catalog.now ≡ catalog_length }
    ensures { result ≡ (tidy_catalog catalog.now && sound_catalog (catalog_of catalog.now)) }
{
    catalog_tidy(catalog)
        && sound_catalog(
            layout::tables(catalog),
            layout::tablets(catalog),
            layout::placements(catalog),
            layout::retirements(catalog),
            &layout::marks(catalog),
        )
}

// ---- the store

// Document 01: a store for which this does not hold "gets 10, reason 12, before all else".
#[tactic(auto, unfolding(laws::specs::Tests::all_of, layout::specs::Layout::sound))]
pub fn sound(block: &[u8]) -> bool
    ensures { result ≡ sound block.now }
{
    if block.len() != STORE_BYTES {
        return false;
    }
    directory_sound(layout::directory(block)) && catalog_sound(layout::catalog(block))
}
