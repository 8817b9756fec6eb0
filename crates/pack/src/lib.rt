// Packing: a source's table as bytes.
//
// `pack` writes the table of any source, block by block, to the front of given bytes, or refuses and writes nothing. Its contract
// says which bytes: the packed form that crate blocks defines, of the table that crate table answers; and when it refuses. Rests on
// table for the rows, on blocks for the packed form, and on policy for sources.
#![tactic(auto)]

pub mod packing;
mod writing;

pub use packing::pack;
