// Decision kinds: what can be decided of a packet, in which order decisions stand, and by which words they are written.
//
// A kind's decisions are the numbers below its count. What a kind owes is the trait `Kind`: its laws stand in specs/Kinds.antt,
// and each kind shows them for its own decisions. Rests on nothing.
#![tactic(auto)]

pub mod kind;
pub mod marks;
pub mod verdicts;

pub use kind::Kind;
pub use marks::Marks;
pub use verdicts::Verdicts;
