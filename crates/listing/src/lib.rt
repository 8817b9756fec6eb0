// A book's rules as text, which reads back as the same rules. Rests on book and text.
#![tactic(auto)]

pub mod listing;

pub use listing::print_rules;
