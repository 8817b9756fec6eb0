// What is wrong with a rule text, layer by layer. Each layer carries the fault of the one below it whole.
ghost use Rattle.std.specs.Prelude.{◌≡◌, Some};
ghost use Rattle.text.specs.Faults.{report_of, report_text};
ghost use Rattle.text.specs.declared.faults.LineFault.TheVariants.{Letter, Word};

use std::fmt;

// Layer 1. 7: a byte outside 32 to 126.
#[derive(Clone, Copy, PartialEq, Eq, Debug)]
pub struct LetterFault {
    pub byte: u8,
    pub column: usize,
}

// Layer 2, at the column where the word begins.
#[derive(Clone, Copy, PartialEq, Eq, Debug)]
pub enum WordFault {
    // 10: a malformed or too large number.
    Number { column: usize },
    // 3: a range whose low end is above its high end.
    Reversed { column: usize },
}

// Layer 3.
#[derive(Clone, Copy, PartialEq, Eq, Debug)]
pub enum LineFault {
    Letter(LetterFault),
    Word(WordFault),
    // 8: other than six words, or an empty one.
    Words { column: usize },
    // 9: the first word is no decision that a rule can have.
    Decision,
}

// Layer 4. Lines are counted from 1.
#[derive(Clone, Copy, PartialEq, Eq, Debug)]
pub enum ReadFault {
    Line { line: usize, fault: LineFault },
    // 1: a 65th rule.
    Full { line: usize },
    // 6: a text of more than 16,384 bytes.
    Long,
}

// A fault as numbers. Line and column are counted from 1, and 0 for a fault that has none.
#[derive(Clone, Copy, PartialEq, Eq, Debug)]
pub struct Report {
    pub number: u8,
    pub layer: u8,
    pub line: usize,
    pub column: usize,
}

// The line that tells a refusal, without its line feed.
impl fmt::Display for Report {
    ghost output = { λ report. Some (report_text report) };

    fn fmt<W: fmt::Write>(&self, f: &mut fmt::Formatter<W>) -> fmt::Result {
        let Report {
            number,
            layer,
            line,
            column,
        } = *self;
        write!(
            f,
            "refused {number} layer {layer} line {line} column {column}"
        )
    }
}

// Written out, since a derived `From` does not say what it gives.
impl From<LetterFault> for LineFault {
    ghost from_gives = { λ fault r. r ≡ Letter fault };

    fn from(fault: LetterFault) -> LineFault {
        LineFault::Letter(fault)
    }
}

impl From<WordFault> for LineFault {
    ghost from_gives = { λ fault r. r ≡ Word fault };

    fn from(fault: WordFault) -> LineFault {
        LineFault::Word(fault)
    }
}

impl ReadFault {
    // The numbers by which the fault is told.
    pub fn report(self) -> Report
        ensures { result ≡ report_of self }
    {
        let (number, layer, line, column) = match self {
            ReadFault::Line { line, fault } => match fault {
                LineFault::Letter(letter) => (7, 1, line, letter.column),
                LineFault::Word(WordFault::Number { column }) => (10, 2, line, column),
                LineFault::Word(WordFault::Reversed { column }) => (3, 2, line, column),
                LineFault::Words { column } => (8, 3, line, column),
                LineFault::Decision => (9, 3, line, 1),
            },
            ReadFault::Full { line } => (1, 4, line, 1),
            ReadFault::Long => (6, 4, 0, 0),
        };
        Report {
            number,
            layer,
            line,
            column,
        }
    }
}
