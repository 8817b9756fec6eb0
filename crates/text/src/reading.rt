// A text read into a book.
ghost use Rattle.std.specs.Prelude.{◌≡◌};
ghost use Rattle.text.specs.Reads.{reads};
ghost use Rattle.book.specs.Books.{rules_of};
ghost use Rattle.text.specs.Readings.{add_line, read_of};

use crate::faults::ReadFault;
use crate::lines::{Line, Text};
use book::Book;
use decision::Kind;

// Adds the rule of a line, if it has one.
fn add_line<K: Kind>(book: &mut Book<K>, line: Line) -> Result<(), ReadFault>
    ensures answer { result ≡ (add_line (reads K.Kind) line.entry.number line.entry.bytes.now (rules_of book.old)).answer }
    ensures rules { rules_of book.new ≡ (add_line (reads K.Kind) line.entry.number line.entry.bytes.now (rules_of book.old)).rules }
{
    let Some(rule) = line.read::<K>()? else {
        return Ok(());
    };
    // A rule that a line writes is refused only by a full book.
    book.add(book.rules().len(), rule)
        .map_err(|_| ReadFault::Full { line: line.number })
}

// Empties the book and adds the rules of the text line by line; after a fault the book holds the rules of the lines before.
pub fn read<K: Kind>(book: &mut Book<K>, text: &[u8]) -> Result<(), ReadFault>
    ensures answer { result ≡ (read_of (reads K.Kind) text.now).answer }
    ensures rules { rules_of book.new ≡ (read_of (reads K.Kind) text.now).rules }
{
    book.clear();
    for line in Text::new(text)?.lines() {
        add_line(book, line)?;
    }
    Ok(())
}
