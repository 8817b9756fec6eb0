// What can be wrong with packed bytes, and why they are not opened.
//
// `Damage` has the refusals 11 to 16 with their places, and is printed as its number and its place; when each is answered stands in crate opening's
// specs/Damages.antt. Rests on nothing.
#![tactic(auto)]

pub mod damage;
pub mod refusal;

pub use damage::Damage;
pub use refusal::OpenRefusal;
