// Rules as lines.
ghost use Rattle.std.specs.Prelude.{◌≡◌, ◌<◌, [], ◌∷◌, ◌++◌, is_ok, if◌then◌else◌, string_bytes, decimal};
ghost use Rattle.packet.specs.Regions.{ranges};
ghost use Rattle.text.specs.Fields.{fields};
ghost use Rattle.text.specs.Printing.{Appended, bytes_text, value_text, whole, range_text, ranges_text, line_text};

use decision::Kind;
use itoa::Buffer;
use packet::{Field, Range, Region};
use std::alloc::AllocError;

// Each function here leaves the text as it was, or begun, when memory runs out. A `write!` would promise nothing of the text then.
fn push_letter(out: &mut String, letter: u8) -> Result<(), AllocError>
    requires { letter < 128 }
    ensures { Appended result (string_bytes out.old) (letter ∷ []) (string_bytes out.new) }
{
    out.push(char::from(letter))
}

fn push_number(out: &mut String, number: u32) -> Result<(), AllocError>
    ensures { Appended result (string_bytes out.old) (decimal number) (string_bytes out.new) }
{
    // One digit is written as a letter, since the buffer costs more than the digit.
    if number < 10 {
        return push_letter(out, b'0' + number as u8);
    }
    out.push_str(Buffer::new().format(number))
}

// The lowest bytes of a number, `more` and one, with full stops between them. By recursion, since four bytes in a row would be seven
// writes, each with its error.
fn push_bytes(out: &mut String, more: u8, number: u32) -> Result<(), AllocError>
    ensures { Appended result (string_bytes out.old) (bytes_text more number) (string_bytes out.new) }
{
    if more == 0 {
        return push_number(out, number % 256);
    }
    push_bytes(out, more - 1, number / 256)?;
    push_letter(out, b'.')?;
    push_number(out, number % 256)
}

fn push_value(out: &mut String, field: Field, value: u32) -> Result<(), AllocError>
    ensures { Appended result (string_bytes out.old) (value_text field value) (string_bytes out.new) }
{
    match field {
        Field::Source | Field::Destination => push_bytes(out, 3, value),
        Field::SourcePort | Field::DestinationPort | Field::Protocol => push_number(out, value),
    }
}

// Is the range exactly that of all values? A whole range of a rule may reach further.
fn is_whole(field: Field, range: Range<u32>) -> bool
    ensures { result ≡ whole field range }
{
    range.low == 0 && range.high == field.top()
}

fn push_range(out: &mut String, field: Field, range: Range<u32>) -> Result<(), AllocError>
    ensures { Appended result (string_bytes out.old) (range_text field range) (string_bytes out.new) }
{
    if is_whole(field, range) {
        return push_letter(out, b'*');
    }
    push_value(out, field, range.low)?;
    if range.low == range.high {
        return Ok(());
    }
    push_letter(out, b'-')?;
    push_value(out, field, range.high)
}

// The ranges of all fields in their order, with a space before each.
fn push_ranges(out: &mut String, region: Region) -> Result<(), AllocError>
    ensures { Appended result (string_bytes out.old) (ranges_text fields (ranges region)) (string_bytes out.new) }
{
    for field in Field::ALL {
        push_letter(out, b' ')?;
        push_range(out, field, region.range(field))?;
    }
    Ok(())
}

fn push_line<K: Kind>(out: &mut String, region: Region, decision: u8) -> Result<(), AllocError>
    ensures { Appended result (string_bytes out.old) (line_text K.Kind.word decision (ranges region)) (string_bytes out.new) }
{
    out.push_str(K::word(decision))?;
    push_ranges(out, region)
}

// Appends the line of a rule, without a line feed. If memory runs out, the text stays as it was.
pub fn print_line<K: Kind>(out: &mut String, region: Region, decision: u8) -> Result<(), AllocError>
    ensures { string_bytes out.new ≡ string_bytes out.old ++ (if is_ok result then line_text K.Kind.word decision (ranges region) else []) }
{
    let length = out.len();
    let printed = push_line::<K>(out, region, decision);
    if printed.is_err() {
        out.truncate(length);
    }
    printed
}
