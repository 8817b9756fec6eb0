// Findings: the pairs of a book's rules that hide each other.
//
// `findings` lists them in order, and answers and writes what specs/Hidings.antt defines. Whether one region covers another, or
// shares a packet with it, is tested on their ranges (`covers`, `shares`) and proved to mean what it says of packets; so each pair
// gets the first finding that applies to its packets. Rests on packet, decision and book.
#![tactic(auto)]

pub mod finding;
pub mod listing;
pub mod overlap;

pub use finding::{Finding, Hiding, TooShort};
pub use listing::findings;
pub use overlap::{covers, shares};
