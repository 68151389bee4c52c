#![tactic(auto, unfolding(metadata::specs::Answers::answer_if, metadata::specs::Answers::and_then))]

// Tablets: what the creation of a tablet is answered, and whether a table is complete. The rows of both tables stand in bytes, as the store has them.
ghost use Rattle.std.specs.Prelude.{◌≡◌, cond};
ghost use Rattle.laws.specs.Keyed.{has};
ghost use Rattle.laws.specs.Lists.{any, tally};
ghost use Rattle.metadata.specs.Answers.{Gives};
ghost use Rattle.metadata.specs.Tables.{group_key, table_of};
ghost use Rattle.metadata.specs.Tablets.{is_hash, in_table, holds_bucket, partitions_overlap, overlap_at, judge_hash, judge_range, judge_new_tablet, judge_tablet, is_complete};
ghost use Rattle.rows.specs.Rows.{table_rows, tablet_row, tablet_rows};

use metadata::{
    Answer, PartitionSpec, RaftGroupId, TABLET_ROOM, TableId, TableKind, TableRow, TabletDescriptor,
};
use rows::{Groups, TableBytes, Tables, TabletBytes, Tablets};
use text::ranges_overlap;

// The kind is a byte, since a command may bring any: 0 is Hash, 1 is Range.
fn is_hash(t: &TabletDescriptor) -> bool
    ensures { result ≡ is_hash t.now }
{
    t.partition.kind == 0
}

// A Hash tablet of the table, with the bucket.
pub fn holds_bucket(k: TableId, bucket: u32, row: &TabletBytes) -> bool
    ensures { result ≡ holds_bucket k bucket (tablet_row row.now) }
{
    rows::is_hash(row) && rows::in_table(k, row) && rows::bucket(row) == bucket
}

// The range of a tablet that a command brings overlaps that of a row.
pub fn partitions_overlap(a: &PartitionSpec, old: &TabletBytes) -> bool
    ensures { result ≡ partitions_overlap a.now (tablet_row old.now).partition }
{
    ranges_overlap(
        a.start_key.text(),
        a.end_key.text(),
        rows::start_key(old),
        rows::end_key(old),
    )
}

// The table's row; a blank one where there is none.
#[tactic(auto, using(laws::proofs::KeyedLaws::row_absent))]
pub fn table_of(id: TableId, tables: &[TableBytes]) -> TableRow
    ensures { result ≡ table_of id.0 (table_rows tables.now) }
{
    match tables::get::<Tables>(tables, id) {
        Some(row) => row,
        None => TableRow {
            table_id: TableId(0),
            tablet_count: 0,
        },
    }
}

// How many tablets of both kinds the table has.
#[tactic(auto, using(crate::proofs::Counted::tally_is))]
pub fn count_in_table(k: TableId, tablets: &[TabletBytes]) -> usize
    ensures { result ≡ tally (in_table k) (tablet_rows tablets.now) }
{
    tablets.iter().filter(|t| rows::in_table(k, t)).count()
}

// A Hash tablet of the table has the bucket.
fn bucket_held(k: TableId, bucket: u32, tablets: &[TabletBytes]) -> bool
    ensures { result ≡ any (holds_bucket k bucket) (tablet_rows tablets.now) }
{
    tablets.iter().any(|t| holds_bucket(k, bucket, t))
}

// A tablet has the group. Rows rise by tablet id and not by group, so the search goes over all.
fn group_held(group: RaftGroupId, tablets: &[TabletBytes]) -> bool
    ensures { result ≡ has group_key group.0 (tablet_rows tablets.now) }
{
    tables::contains::<Groups>(tablets, group)
}

// The checks of a Hash tablet. Each check is lent the tables that it reads and the tablet, one by one.
#[tactic(auto, unfolding(metadata::specs::Tablets::judge_hash, metadata::specs::Answers::answer_if, metadata::specs::Answers::and_then))]
pub fn judge_hash(
    tables: &[TableBytes],
    tablets: &[TabletBytes],
    t: &TabletDescriptor,
) -> Result<(), Answer>
    ensures { Gives result (judge_hash (table_rows tables.now) (tablet_rows tablets.now) t.now) }
{
    let id = t.table_id;
    let bucket = t.partition.bucket;
    let received = t.partition.bucket_count;
    let limit = table_of(id, tables).tablet_count;
    if received != limit {
        return Err(Answer::PartitionCountMismatch(id, limit, received));
    }
    if bucket_held(id, bucket, tablets) {
        return Err(Answer::PartitionConflict(id, bucket));
    }
    if (limit as usize) <= count_in_table(id, tablets) {
        return Err(Answer::TabletCountExceeded(id, limit));
    }
    Ok(())
}

// The new tablet's range against that of one row.
pub fn overlap_at(t: &TabletDescriptor, old: &TabletBytes) -> Result<(), Answer>
    ensures { Gives result (overlap_at t.now (tablet_row old.now)) }
{
    if rows::is_range(old)
        && rows::in_table(t.table_id, old)
        && partitions_overlap(&t.partition, old)
    {
        return Err(Answer::RangeOverlap(rows::tablet_id(old)));
    }
    Ok(())
}

// The checks of a Range tablet: rows rise by id, so the first that overlaps has the lowest id.
#[tactic(auto, unfolding(metadata::specs::Tablets::judge_range), using(metadata::proofs::Each::each_rules))]
pub fn judge_range(tablets: &[TabletBytes], t: &TabletDescriptor) -> Result<(), Answer>
    ensures { Gives result (judge_range (tablet_rows tablets.now) t.now) }
{
    for old in tablets {
        overlap_at(t, old)?;
    }
    Ok(())
}

// The checks of a tablet of its kind.
fn judge_kind(
    tables: &[TableBytes],
    tablets: &[TabletBytes],
    t: &TabletDescriptor,
) -> Result<(), Answer>
    ensures { Gives result (cond (is_hash t.now) (judge_hash (table_rows tables.now) (tablet_rows tablets.now) t.now) (judge_range (tablet_rows tablets.now) t.now)) }
{
    if is_hash(t) {
        judge_hash(tables, tablets, t)
    } else {
        judge_range(tablets, t)
    }
}

// The checks of a tablet whose id is not known yet.
#[tactic(auto, unfolding(metadata::specs::Tablets::judge_new_tablet, metadata::specs::Answers::answer_if, metadata::specs::Answers::and_then))]
pub fn judge_new_tablet(
    tables: &[TableBytes],
    tablets: &[TabletBytes],
    t: &TabletDescriptor,
) -> Result<(), Answer>
    ensures { Gives result (judge_new_tablet (table_rows tables.now) (tablet_rows tablets.now) t.now) }
{
    if group_held(t.raft_group_id, tablets) {
        return Err(Answer::RaftGroupConflict(t.raft_group_id));
    }
    let Some(_) = tables::stored::<Tables>(tables, t.table_id) else {
        return Err(Answer::UnknownTable(t.table_id));
    };
    judge_kind(tables, tablets, t)?;
    if TABLET_ROOM <= tablets.len() {
        return Err(Answer::TableFull(TableKind::Tablets, TABLET_ROOM as u64));
    }
    Ok(())
}

// The checks of a tablet, from top to bottom. Of the tablets only the one under its own id is read whole, to be compared.
// It is lent the tables that it reads, one by one: so its signature says which.
#[tactic(auto, unfolding(metadata::specs::Tablets::judge_tablet))]
pub fn judge_tablet(
    tables: &[TableBytes],
    tablets: &[TabletBytes],
    t: &TabletDescriptor,
) -> Result<(), Answer>
    ensures { Gives result (judge_tablet (table_rows tables.now) (tablet_rows tablets.now) t.now) }
{
    match tables::get::<Tablets>(tablets, t.tablet_id) {
        Some(known) if known.is_same(t) => Err(Answer::AlreadyApplied),
        Some(_) => Err(Answer::TabletIdConflict(t.tablet_id)),
        None => judge_new_tablet(tables, tablets, t),
    }
}

// The table has as many tablets as its tablet count says; no for an unknown table.
#[tactic(auto, unfolding(metadata::specs::Tablets::is_complete))]
pub fn is_complete(k: TableId, tables: &[TableBytes], tablets: &[TabletBytes]) -> bool
    ensures { result ≡ is_complete k (table_rows tables.now) (tablet_rows tablets.now) }
{
    match tables::get::<Tables>(tables, k) {
        Some(row) => count_in_table(k, tablets) == row.tablet_count as usize,
        None => false,
    }
}
