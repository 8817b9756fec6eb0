// Rule text: what is read of any bytes, and how a rule is printed.
//
// A text is cut into lines, a line into words, a range word into its ends and an address into its numbers by one cut at a byte
// (pieces). Lines come with their numbers (lines). A lexer hands the words of a line on as tokens with their columns, and each layer
// above adds what it knows: letters, numbers, ranges, regions, a line, the text. The faults of one layer are carried whole by the next
// (faults). The contract that matters most is that of `read`: its answer, and the rules that the book then holds, are those of
// specs/Readings.antt, whatever the bytes are. `deciding_line` finds the line that decides a packet without a book
// (specs/DecidingLines.antt). `print_line` writes the form that `read` reads. Rests on packet, decision and book, and on itoa for
// the digits of numbers.
#![tactic(auto)]

pub mod deciding;
pub mod faults;
mod letters;
mod lexer;
mod line;
mod lines;
mod numbers;
mod pieces;
pub mod print;
mod ranges;
pub mod reading;
mod regions;
mod tokens;
mod words;

pub use deciding::deciding_line;
pub use faults::{LetterFault, LineFault, ReadFault, Report, WordFault};
pub use lines::LIMIT;
pub use print::print_line;
pub use reading::read;
