// Tables: what a source decides, as rows.
//
// A row is a region and a decision. `rows_of` answers the rows of any source; its contract says which: the table of the source's
// meaning, which is nested, has no two neighbouring ranges alike, and decides every packet as the source does. Rests on policy for
// sources and on theory for tables.
#![tactic(auto)]

pub mod refusal;
pub mod row;
pub mod rows;

pub use refusal::PackRefusal;
pub use row::Row;
pub use rows::rows_of;
