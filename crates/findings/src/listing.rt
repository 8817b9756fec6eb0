// The findings of a book, written into a list of entries.
ghost use Rattle.std.specs.Prelude.{◌≡◌, ◌≤◌, length};
ghost use Rattle.std.proofs.lemmas.List.Edits.{sets};
ghost use Rattle.book.specs.Books.{rules_of};
ghost use Rattle.findings.specs.Hidings.{hiding_of, First, findings_of, Faithful, count_of, entries_after};

use crate::finding::{Finding, Hiding, TooShort};
use crate::overlap::{covers, shares};
use book::{Book, Rule};
use decision::Kind;

// Writes the book's findings to the first entries and answers how many there are; the other entries stay. The entries are lent, so that
// no memory is needed.
#[tactic(auto, using(crate::proofs::Listed::written_over))]
pub fn findings<K: Kind>(book: &Book<K>, entries: &mut [Finding]) -> Result<usize, TooShort>
    ensures answer { result ≡ count_of (findings_of (rules_of book.now)) (length entries.old) }
    ensures entries { entries.new ≡ entries_after (findings_of (rules_of book.now)) entries.old }
    ensures packets { Faithful (rules_of book.now) }
{
    let rules = book.rules();
    // With no entries to write to, they are only counted.
    let count = list(rules, &mut []);
    if count > entries.len() {
        return Err(TooShort);
    }
    Ok(list(rules, entries))
}

// Writes the rules' findings to the first entries, as far as these reach, and answers how many findings there are. An iterator of
// the findings would be no plainer: it would keep both positions and step them by hand.
fn list(rules: &[Rule], entries: &mut [Finding]) -> usize
    requires { length rules.now ≤ 64 }
    ensures count { result ≡ length (findings_of rules.now) }
    ensures entries { entries.new ≡ sets entries.old 0 (findings_of rules.now) }
    ensures packets { Faithful rules.now }
{
    let mut count = 0;
    for (first, rule) in rules.iter().enumerate() {
        let later = &rules[first + 1..];
        for (ahead, other) in later.iter().enumerate() {
            if let Some(hiding) = hiding(*rule, *other) {
                // By index, since of what is written through a slice's get_mut a proof knows no element.
                if count < entries.len() {
                    entries[count] = Finding {
                        first,
                        second: first + 1 + ahead,
                        hiding,
                    };
                }
                count += 1;
            }
        }
    }
    count
}

// How a rule and a later one hide each other, if they do.
fn hiding(first: Rule, second: Rule) -> Option<Hiding>
    ensures test { result ≡ hiding_of first second }
    ensures packets { First result first second }
{
    let agree = first.decision == second.decision;
    if covers(first.region, second.region) {
        return Some(if agree {
            Hiding::Redundant
        } else {
            Hiding::Shadowed
        });
    }
    if agree {
        return None;
    }
    if covers(second.region, first.region) {
        return Some(Hiding::Generalised);
    }
    if shares(first.region, second.region) {
        return Some(Hiding::Correlated);
    }
    None
}
