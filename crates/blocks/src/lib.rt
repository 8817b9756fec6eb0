// The packed form of a table: blocks of 512 bytes.
//
// specs/Numbers.antt has numbers as bytes, specs/Writing.antt the blocks of a list of rows, specs/Reading.antt the rows that blocks
// hold. proofs/ show that each undoes the other. The code here is what a writer and a reader share: the sizes, where a row's
// fields stand, and a block's check.
// Rests on packet and theory, for ranges and rows; crate pack writes this form and crate opening reads it.
#![tactic(auto)]

pub mod check;
pub mod layout;

pub use check::check_sum;
pub use layout::{WIDTHS, start, width};

// The bytes of a block, and of a row.
pub const BLOCK_BYTES: usize = 512;

pub const ROW_BYTES: usize = 28;

// The rows that a block has room for.
pub const BLOCK_ROWS: usize = 18;
