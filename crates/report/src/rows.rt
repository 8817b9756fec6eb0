// The rows of a rule text.
ghost use Rattle.std.specs.Prelude.{◌≡◌, IfOk, string_bytes};
ghost use Rattle.table.specs.Rows.{view};
ghost use Rattle.report.specs.Outputs.{Answers, Prints, rows_text};
ghost use Rattle.report.specs.Reports.{report_of_rows};

use crate::unanswered::Unanswered;
use book::Book;
use decision::Kind;
use std::alloc::{AllocError, Global};
use table::{Row, rows_of};
use text::{print_line, read};

// The rows of the table that the text's rules have, or the text's first fault, or refusal 5.
pub fn rows_report<K: Kind>(heap: Global, text: &[u8]) -> Result<String, Unanswered>
    ensures { Answers (report_of_rows K.Kind.COUNT K.Kind.SILENT K.Kind.word text.now) result }
{
    let mut book = Book::<K>::open(heap)?;
    read(&mut book, text)?;
    let rows = rows_of::<K, Book<K>>(heap, &book)?;
    Ok(rows_lines::<K>(heap, &rows)?)
}

// What the program prints for a rule text: the rows, or the line of the refusal.
pub fn printed_rows<K: Kind>(
    heap: Global,
    text: &[u8],
) -> Result<Result<String, String>, Unanswered>
    ensures { Prints (report_of_rows K.Kind.COUNT K.Kind.SILENT K.Kind.word text.now) result }
{
    match rows_report::<K>(heap, text) {
        Ok(lines) => Ok(Ok(lines)),
        Err(Unanswered::Refused(report)) => Ok(Err(format!(in heap; "{report}\n")?)),
        Err(Unanswered::Memory) => Err(Unanswered::Memory),
    }
}

// The count of rows, and a line for each row.
fn rows_lines<K: Kind>(heap: Global, rows: &[Row]) -> Result<String, AllocError>
    ensures { IfOk result (λ text. string_bytes text ≡ rows_text K.Kind.word (view rows.now)) }
{
    let count = rows.len();
    let mut text = format!(in heap; "rows {count}\n")?;
    for row in rows {
        print_line::<K>(&mut text, row.region, row.decision)?;
        text.push('\n')?;
    }
    Ok(text)
}
