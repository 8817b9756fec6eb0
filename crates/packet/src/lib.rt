// Packets, their fields, and regions of packets.
//
// A packet is five numbers, a region five ranges, and both are read by specs/ as lists with one element for each field, in the
// order of `Field`. In the definitions the list `tops` of the fields' largest values alone says how many fields there are and how
// large their values get, so that what is proved over lists holds for any number of fields. Rests on nothing.
#![tactic(auto)]

pub mod field;
pub mod packet;
pub mod range;
pub mod region;

pub use field::Field;
pub use packet::Packet;
pub use range::Range;
pub use region::Region;
