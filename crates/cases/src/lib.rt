// What the programs that answer cases share: the words by which a case gives bytes, a number and a packet, and the end of an answer
// that has several lines.
//
// Rests on packet and report.
#![tactic(auto)]

pub mod answers;
#[cfg(test)]
mod tests;
pub mod words;

pub use answers::ended;
pub use words::{bytes, number, packet};
