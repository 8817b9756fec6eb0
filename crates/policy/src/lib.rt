// Sources: whatever decides packets, and the layers that make one source of others.
//
// `Source` is the interface: decide answers a source's meaning, edge how far along a field nothing changes. A layer holds its
// sources by value and is a source again, so that piles of layers need no proof of their own: `Combined` makes one decision of
// two, in one of the ways `Over`, `Meet` and `Join`, and `Part` keeps one source to a region. Rests on packet and decision.
#![tactic(auto)]

pub mod combined;
pub mod join;
pub mod meet;
pub mod over;
pub mod part;
pub mod source;

pub use combined::{Combination, Combined};
pub use join::Join;
pub use meet::Meet;
pub use over::Over;
pub use part::{Part, ReversedRegion};
pub use source::Source;
