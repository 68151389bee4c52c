#![tactic(auto, unfolding(crate::specs::Layout::name_of, crate::specs::Layout::marks_of), using(crate::proofs::Parts::head_length, tables::proofs::Pieces::few_rows))]

// A store as one block of bytes: the directory (name, nodes), then the catalog (tables, tablets, placements, retirements, marks). Each table is the count of its rows in eight bytes, then its rows.
ghost use Rattle.layout.specs.Layout.{name_of, marks_of, nodes_in, nodes_part, tables_in, tables_part, tablets_in, tablets_part, placements_in, placements_part, retirements_in, retirements_part, directory_part, catalog_part};
ghost use Rattle.layout.specs.Places.{directory_length, catalog_length, store_length};
ghost use Rattle.rows.specs.Rows.{node_rows, table_rows, tablet_rows, placement_rows, retirement_rows};
ghost use Rattle.metadata.specs.Rooms.{node_room, table_room, tablet_room, retirement_room};
ghost use Rattle.std.specs.Prelude.{◌≡◌, ◌≤◌, length};

use metadata::{
    MetadataAllocatorState, NODE_ROOM, OptionalName, RETIREMENT_ROOM, TABLE_ROOM, TABLET_ROOM,
};
use rows::{NodeBytes, PlacementBytes, RetirementBytes, TableBytes, TabletBytes};
use tables::used;

// ---- places and lengths; specs/Places.antt names them once more

pub const NODES: usize = 49;

pub const DIRECTORY_BYTES: usize = 9817;

pub const TABLETS: usize = 200;

pub const PLACEMENTS: usize = 7056;

pub const RETIREMENTS: usize = 22040;

pub const MARKS: usize = 34336;

pub const CATALOG_BYTES: usize = 34368;

pub const STORE_BYTES: usize = 44185;

// ---- the two parts

pub fn directory(block: &[u8]) -> &[u8]
    requires { length block.now ≡ store_length }
    ensures part { result.now ≡ directory_part block.now }
    ensures long { length result.now ≡ directory_length }
{
    block.split_at(DIRECTORY_BYTES).0
}

pub fn catalog(block: &[u8]) -> &[u8]
    requires { length block.now ≡ store_length }
    ensures part { result.now ≡ catalog_part block.now }
    ensures long { length result.now ≡ catalog_length }
{
    &block[DIRECTORY_BYTES..]
}

// ---- what the directory says

pub fn name(directory: &[u8]) -> OptionalName
    requires { length directory.now ≡ directory_length }
    ensures { result ≡ name_of directory.now }
{
    encode::name(directory.split_at(NODES).0)
}

pub fn nodes(directory: &[u8]) -> &[NodeBytes]
    requires { length directory.now ≡ directory_length }
    ensures rows { node_rows result.now ≡ nodes_in (nodes_part directory.now) }
    ensures few { length result.now ≤ node_room }
{
    used(&directory[NODES..], NODE_ROOM)
}

// ---- what the catalog says

pub fn tables(catalog: &[u8]) -> &[TableBytes]
    requires { length catalog.now ≡ catalog_length }
    ensures rows { table_rows result.now ≡ tables_in (tables_part catalog.now) }
    ensures few { length result.now ≤ table_room }
{
    used(catalog.split_at(TABLETS).0, TABLE_ROOM)
}

pub fn tablets(catalog: &[u8]) -> &[TabletBytes]
    requires { length catalog.now ≡ catalog_length }
    ensures rows { tablet_rows result.now ≡ tablets_in (tablets_part catalog.now) }
    ensures few { length result.now ≤ tablet_room }
{
    used(&catalog[TABLETS..PLACEMENTS], TABLET_ROOM)
}

pub fn placements(catalog: &[u8]) -> &[PlacementBytes]
    requires { length catalog.now ≡ catalog_length }
    ensures rows { placement_rows result.now ≡ placements_in (placements_part catalog.now) }
    ensures few { length result.now ≤ tablet_room }
{
    used(&catalog[PLACEMENTS..RETIREMENTS], TABLET_ROOM)
}

pub fn retirements(catalog: &[u8]) -> &[RetirementBytes]
    requires { length catalog.now ≡ catalog_length }
    ensures rows { retirement_rows result.now ≡ retirements_in (retirements_part catalog.now) }
    ensures few { length result.now ≤ retirement_room }
{
    used(&catalog[RETIREMENTS..MARKS], RETIREMENT_ROOM)
}

pub fn marks(catalog: &[u8]) -> MetadataAllocatorState
    requires { length catalog.now ≡ catalog_length }
    ensures { result ≡ marks_of catalog.now }
{
    encode::marks(&catalog[MARKS..])
}
