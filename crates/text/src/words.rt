// The words of a line: how many there are, and what ranges they write.
ghost use Rattle.std.specs.Prelude.{◌≡◌};
ghost use Rattle.text.specs.Words.{words_of};

use crate::faults::LineFault;
use crate::lexer::Lexer;
use crate::lines::Line;

// line = six words, none of them empty
pub(crate) fn six_words(line: Line) -> Result<(), LineFault>
    ensures { result ≡ words_of line.entry.bytes.now }
{
    let mut words = Lexer::new(line);
    for _ in 0..6_usize {
        let Some(token) = words.next() else {
            return Err(LineFault::Words {
                column: line.bytes.len() + 1,
            });
        };
        if token.text().is_empty() {
            return Err(LineFault::Words {
                column: token.column(),
            });
        }
    }
    match words.next() {
        None => Ok(()),
        Some(token) => Err(LineFault::Words {
            column: token.column(),
        }),
    }
}
