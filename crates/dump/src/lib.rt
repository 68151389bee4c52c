#![tactic(auto)]

// The final tables and marks of a store's block: a line by its number, how many there are, and all of them on a writer.
ghost use Rattle.std.specs.Prelude.{◌≡◌, ◌≤◌, [], ◌∷◌, length, map};
ghost use Rattle.printing.specs.Sent.{Sent};
ghost use Rattle.dump.specs.Dump.{table_line_among, directory_lines, catalog_lines, dump_lines, dump_text};
ghost use Rattle.dump.specs.Lines.{LineAt, Sought, Gathered};
ghost use Rattle.layout.specs.Layout.{directory_of, catalog_of, store_of};
ghost use Rattle.layout.specs.Places.{directory_length, catalog_length, store_length};
ghost use Rattle.rows.specs.Rows.{table_rows, tablet_rows};
ghost use Rattle.row_lines.specs.StoreLines.{marks_line, next_line};

use arrayvec::ArrayString;
use choice::select_initial_placement;
use layout::STORE_BYTES;
use metadata::MetadataAllocatorState;
use printing::emit;
use row_lines::{
    DUMP_LINE_ROOM, Page, Printed, put_marks, put_name, put_next, put_pick, put_table,
};
use rows::{Nodes, Placements, Retirements, TableBytes, Tables, TabletBytes, Tablets};
use std::io;
use std::io::Write;
use tables::Table;
use tablets::is_complete;

// How many bytes are written at a time, at most.
const BLOCK_ROOM: usize = 8192;

type Block = ArrayString<BLOCK_ROOM>;

// ---- one line: its number is brought down part by part. Each part gives the number from behind it on, or none where it has put the line

fn put_row_at<T: Table>(out: &mut Page, rows: &[T::Bytes], i: usize) -> Option<usize>
where
    T::Record: Printed,
    requires room { T.Record.room ≤ DUMP_LINE_ROOM }
    requires empty { out.old.bytes ≡ [] }
    ensures { Sought (map T.Record.text (map T.record_of rows.now)) i out.new.bytes result }
{
    let Some(row) = rows.get(i) else {
        return Some(i - rows.len());
    };
    T::read(row).put(out);
    None
}

// What a table's line says of completeness is counted.
fn put_table_at(
    out: &mut Page,
    tables: &[TableBytes],
    tablets: &[TabletBytes],
    i: usize,
) -> Option<usize>
    requires { out.old.bytes ≡ [] }
    ensures { Sought (map (table_line_among (table_rows tables.now) (tablet_rows tablets.now)) (table_rows tables.now)) i out.new.bytes result }
{
    let Some(row) = tables.get(i) else {
        return Some(i - tables.len());
    };
    let t = Tables::read(row);
    put_table(out, &t, is_complete(t.table_id, tables, tablets));
    None
}

fn put_marks_at(out: &mut Page, marks: &MetadataAllocatorState, i: usize) -> Option<usize>
    requires { out.old.bytes ≡ [] }
    ensures { Sought (marks_line marks.now ∷ next_line marks.now ∷ []) i out.new.bytes result }
{
    match i {
        0 => {
            put_marks(out, marks);
            None
        }
        1 => {
            put_next(out, marks);
            None
        }
        _ => Some(i - 2),
    }
}

// The name's line, and the nodes'.
fn put_directory_at(out: &mut Page, directory: &[u8], i: usize) -> Option<usize>
    requires long { length directory.now ≡ directory_length }
    requires empty { out.old.bytes ≡ [] }
    ensures { Sought (directory_lines (directory_of directory.now)) i out.new.bytes result }
{
    if i == 0 {
        put_name(out, &layout::name(directory));
        return None;
    }
    put_row_at::<Nodes>(out, layout::nodes(directory), i - 1)
}

// The lines of the catalog's tables, then those of its marks.
fn put_catalog_at(out: &mut Page, catalog: &[u8], i: usize) -> Option<usize>
    requires long { length catalog.now ≡ catalog_length }
    requires empty { out.old.bytes ≡ [] }
    ensures { Sought (catalog_lines (catalog_of catalog.now)) i out.new.bytes result }
{
    let tablets = layout::tablets(catalog);
    let j = put_table_at(out, layout::tables(catalog), tablets, i)?;
    let j = put_row_at::<Tablets>(out, tablets, j)?;
    let j = put_row_at::<Placements>(out, layout::placements(catalog), j)?;
    let j = put_row_at::<Retirements>(out, layout::retirements(catalog), j)?;
    put_marks_at(out, &layout::marks(catalog), j)
}

// The line under a number, on an empty page; false behind the last.
pub fn put_line_at(out: &mut Page, store: &[u8; STORE_BYTES], i: usize) -> bool
    requires { out.old.bytes ≡ [] }
    ensures { LineAt (dump_lines (store_of store.now)) i out.new.bytes result }
{
    let directory = layout::directory(store);
    let Some(j) = put_directory_at(out, directory, i) else {
        return true;
    };
    let Some(k) = put_catalog_at(out, layout::catalog(store), j) else {
        return true;
    };
    if 0 < k {
        return false;
    }
    put_pick(out, &select_initial_placement(layout::nodes(directory)));
    true
}

// ---- all lines

// How many there are: one for each row, the name's, and the last three.
pub fn line_count(store: &[u8; STORE_BYTES]) -> usize
    ensures { result ≡ length (dump_lines (store_of store.now)) }
{
    let directory = layout::directory(store);
    let catalog = layout::catalog(store);
    let nodes = layout::nodes(directory).len();
    let tables = layout::tables(catalog).len();
    let tablets = layout::tablets(catalog).len();
    let placements = layout::placements(catalog).len();
    let retirements = layout::retirements(catalog).len();
    nodes + tables + tablets + placements + retirements + 4
}

// The lines from a number on, as many as there is room for, and the number of the next.
fn gather(block: &mut Block, store: &[u8; STORE_BYTES], from: usize) -> usize
    requires empty { block.old.bytes ≡ [] }
    requires within { from ≤ length (dump_lines (store_of store.now)) }
    ensures { Gathered (dump_lines (store_of store.now)) from result block.new.bytes }
{
    let mut next = from;
    while block.len() <= BLOCK_ROOM - DUMP_LINE_ROOM {
        let mut line = Page::new();
        if !put_line_at(&mut line, store, next) {
            return next;
        }
        block.push_str(line.as_str());
        next += 1;
    }
    next
}

// The final tables and marks on a writer.
pub fn dump_store<W: Write>(to: &mut W, store: &[u8; STORE_BYTES]) -> io::Result<()>
    ensures { Sent (W.contents to.old) (W.contents to.new) (dump_text (store_of store.now)) result }
{
    let mut from = 0;
    loop {
        let mut block = Block::new();
        let next = gather(&mut block, store, from);
        if next == from {
            return Ok(());
        }
        emit(to, block.as_bytes())?;
        from = next;
    }
}
