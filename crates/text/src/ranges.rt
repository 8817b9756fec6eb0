// Range words.
ghost use Rattle.std.specs.Prelude.{◌≡◌, ℕ, List};
ghost use Rattle.text.specs.Pieces.{pieces};
ghost use Rattle.text.specs.Tokens.{Stands};
ghost use Rattle.text.specs.Ranges.{value_of, ends_of, written_range, range_of};

use crate::faults::WordFault;
use crate::numbers::{address, number};
use crate::pieces::Pieces;
use crate::tokens::Token;
use packet::{Field, Range};

// value = address | number, as the field has it
fn value(field: Field, word: &[u8]) -> Option<u32>
    ensures { result ≡ value_of field word.now }
{
    match field {
        Field::Source | Field::Destination => address(word),
        Field::SourcePort | Field::DestinationPort | Field::Protocol => number(word, field.top()),
    }
}

// ends = value | value "-" value
fn ends(field: Field, word: &[u8]) -> Option<Range<u32>>
    ensures { result ≡ ends_of (value_of field) (pieces 45 word.now) }
{
    let mut values = Pieces::new(word, b'-');
    let low = value(field, values.next()?)?;
    let Some(second) = values.next() else {
        return Some(Range { low, high: low });
    };
    let high = value(field, second)?;
    match values.next() {
        None => Some(Range { low, high }),
        Some(_) => None,
    }
}

// The range of a word other than `*`: its ends, of which the low one is not above the high one.
fn written(field: Field, word: &[u8], column: usize) -> Result<Range<u32>, WordFault>
    ensures { result ≡ written_range field column word.now }
{
    let Some(range) = ends(field, word) else {
        return Err(WordFault::Number { column });
    };
    if range.is_reversed() {
        return Err(WordFault::Reversed { column });
    }
    Ok(range)
}

// range = "*" | ends
pub(crate) fn range(field: Field, token: Token) -> Result<Range<u32>, WordFault>
    ensures { (word : List ℕ) (column : ℕ) → Stands token.entry word column → result ≡ range_of field column word }
{
    match token {
        Token::Star { .. } => Ok(Range {
            low: 0,
            high: field.top(),
        }),
        Token::Word { text, column } => written(field, text, column),
    }
}
