// Books: lists of rules in order, of which the first that holds a packet decides it.
//
// A book's calls are promised against the plain list of specs/PlainList.antt: each call answers what the plain list answers and
// leaves the rules that the plain list leaves. What a book decides, and how far a decision reaches, stands in specs/Deciding.antt
// and specs/Reach.antt. Rests on packet, decision and policy.
#![tactic(auto)]

pub mod book;
pub mod refusal;
pub mod rule;

pub use book::{Book, CAPACITY};
pub use refusal::Refusal;
pub use rule::Rule;
