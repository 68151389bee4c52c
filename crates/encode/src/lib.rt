#![tactic(auto)]

// Rows, marks and names as bytes, as the tape has them: what was read from bytes is written as the same bytes.
mod pieces;
mod rows;

pub use rows::{
    marks, marks_bytes, name, name_bytes, node_bytes, placement_bytes, retirement_bytes,
    table_bytes, tablet_bytes,
};

// How many bytes each record has. specs/Widths.antt names them once more.
pub const TABLE_BYTES: usize = 12;

pub const NODE_BYTES: usize = 305;

pub const TABLET_BYTES: usize = 107;

pub const PLACEMENT_BYTES: usize = 234;

pub const RETIREMENT_BYTES: usize = 48;

pub const MARKS_BYTES: usize = 32;

pub const NAME_BYTES: usize = 49;
