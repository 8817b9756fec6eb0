// The rules of a book as text.
ghost use Rattle.std.specs.Prelude.{◌≡◌, ◌++◌, IfOk, string_bytes, OnOk};
ghost use Rattle.book.specs.Books.{rules_of};
ghost use Rattle.listing.specs.Listings.{rules_text, ReadsBack};

use book::Book;
use decision::Kind;
use std::alloc::{AllocError, Global};
use text::print::print_line;

// Appends a line for each rule. The rows of a report are of another type, and their loop is the same two lines.
fn push_rules<K: Kind>(out: &mut String, book: &Book<K>) -> Result<(), AllocError>
    ensures bytes { OnOk result (string_bytes out.new ≡ string_bytes out.old ++ rules_text K.Kind.word (rules_of book.now)) }
    ensures reads_back { OnOk result (ReadsBack K.Kind.COUNT K.Kind.SILENT K.Kind.word (rules_of book.now) (rules_text K.Kind.word (rules_of book.now))) }
{
    for rule in book.rules() {
        // Only for its promise that the ends of ranges fit their fields.
        let _ = rule.region.to_array();
        print_line::<K>(out, rule.region, rule.decision)?;
        out.push('\n')?;
    }
    Ok(())
}

// A line for each rule, in order; read again, they are the same rules.
pub fn print_rules<K: Kind>(heap: Global, book: &Book<K>) -> Result<String, AllocError>
    ensures bytes { IfOk result (λ text. string_bytes text ≡ rules_text K.Kind.word (rules_of book.now)) }
    ensures reads_back { IfOk result (λ text. ReadsBack K.Kind.COUNT K.Kind.SILENT K.Kind.word (rules_of book.now) (string_bytes text)) }
{
    let mut text = String::new(heap);
    push_rules(&mut text, book)?;
    Ok(text)
}
