// What the program prints, made as text, so that it can be promised.
//
// The main job is `rows_report`: rule text in, the rows of its table or its refusal out. `printed_rows` has both as the program prints
// them. Rests on text and table; the program only reads its input and prints.
#![tactic(auto)]

pub mod rows;
#[cfg(test)]
mod tests;
pub mod unanswered;

pub use rows::{printed_rows, rows_report};
pub use unanswered::{TOO_LARGE, Unanswered};
