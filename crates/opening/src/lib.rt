// Packed tables, opened: bytes are looked over, and turned away where they are damaged; what is left decides packets by its rows.
//
// `inspect` looks bytes over, `decide_packed` decides one packet on them, and `open` makes a `Table` of them that is a source. What
// damage is stands in specs/Damages.antt, and `open` promises the rest: the opened rows are the one table of what they decide, so
// that they decide as what was packed and pack to the same bytes again. Rests on policy for sources, on theory for tables and on
// blocks for the packed form.
#![tactic(auto)]

mod alike;
mod framing;
pub mod inspection;
mod nesting;
pub mod packed_table;
mod reading;
mod rows;
mod search;

pub use inspection::{decide_packed, inspect};
pub use packed_table::Table;
