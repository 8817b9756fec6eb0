// The line of a text that decides a packet, found without a book.
ghost use Rattle.std.specs.Prelude.{◌≡◌};
ghost use Rattle.packet.specs.Packets.{values};
ghost use Rattle.text.specs.Reads.{reads};
ghost use Rattle.text.specs.Pieces.{pieces};
ghost use Rattle.text.specs.Lines.{line_of};
ghost use Rattle.text.specs.Readings.{read_of};
ghost use Rattle.text.specs.DecidingLines.{counted, said_holds, first_line, place_of, LineAt, Borrowed, Decides};

use crate::faults::ReadFault;
use crate::lines::{Line, Text};
use book::CAPACITY;
use decision::Kind;
use packet::Packet;

// How many rules there are with that of the line, behind `count` of the lines before it. This and `check` are the steps of `read` with a
// count in place of a book, which needs no memory.
fn count_line<K: Kind>(count: usize, line: Line) -> Result<usize, ReadFault>
    ensures { result ≡ counted line.entry.number count (line_of (reads K.Kind) line.entry.bytes.now) }
{
    match line.read::<K>()? {
        None => Ok(count),
        Some(_) if count < CAPACITY => Ok(count + 1),
        Some(_) => Err(ReadFault::Full { line: line.number }),
    }
}

// Does the text read well?
fn check<K: Kind>(text: Text) -> Result<(), ReadFault>
    ensures { result ≡ (read_of (reads K.Kind) text.entry.bytes.now).answer }
{
    let mut count = 0;
    for line in text.lines() {
        count = count_line::<K>(count, line)?;
    }
    Ok(())
}

// Does the line have a rule that holds the packet?
fn line_holds<K: Kind>(line: Line, packet: Packet) -> bool
    ensures { result ≡ said_holds (values packet) (line_of (reads K.Kind) line.entry.bytes.now) }
{
    match line.read::<K>() {
        Ok(Some(rule)) => rule.region.contains(packet),
        Ok(None) | Err(_) => false,
    }
}

// The first line whose rule holds the packet.
fn first_line<'a, K: Kind>(text: Text<'a>, packet: Packet) -> Option<&'a [u8]>
    ensures { LineAt result text.entry.bytes (first_line (reads K.Kind) (values packet) 0 (pieces 10 text.entry.bytes.now)) }
{
    for line in text.lines() {
        if line_holds::<K>(line, packet) {
            return Some(line.bytes);
        }
    }
    None
}

// The line of the first rule that holds the packet, without its line feed. Refuses a text as `read` does.
pub fn deciding_line<'a, K: Kind>(
    text: &'a [u8],
    packet: Packet,
) -> Result<Option<&'a [u8]>, ReadFault>
    ensures place { Borrowed result text.entry (place_of (reads K.Kind) (values packet) text.now) }
    ensures decision { Decides K.Kind.COUNT K.Kind.SILENT (reads K.Kind) (values packet) (read_of (reads K.Kind) text.now).rules result }
{
    let text = Text::new(text)?;
    check::<K>(text)?;
    Ok(first_line::<K>(text, packet))
}
