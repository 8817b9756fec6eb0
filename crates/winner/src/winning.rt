// The winning line of two texts.
ghost use Rattle.packet.specs.Packets.{values};
ghost use Rattle.text.specs.Reads.{reads};
ghost use Rattle.text.specs.DecidingLines.{place_of};
ghost use Rattle.winner.specs.Winners.{Wins, Settles};

use decision::Kind;
use packet::Packet;
use text::{ReadFault, deciding_line};

// Something of the first text or of the second.
#[derive(Clone, Copy, PartialEq, Eq, Debug)]
pub enum Of<T> {
    First(T),
    Second(T),
}

// The line that decides, without its line feed, and the text that it is borrowed from.
pub type WinningLine<'a> = Of<&'a [u8]>;

// What is wrong with the first text that does not read well.
pub type WinnerFault = Of<ReadFault>;

// The first text's deciding line, or where that text is silent on the packet the second's.
pub fn winner<'a, K: Kind>(
    first: &'a [u8],
    second: &'a [u8],
    packet: Packet,
) -> Result<Option<WinningLine<'a>>, WinnerFault>
    ensures place { Wins result first.entry second.entry (place_of (reads K.Kind) (values packet)) }
    ensures decision { Settles K.Kind.COUNT K.Kind.SILENT (reads K.Kind) (values packet) first.now second.now result }
{
    let upper = deciding_line::<K>(first, packet).map_err(WinnerFault::First)?;
    let lower = deciding_line::<K>(second, packet).map_err(WinnerFault::Second)?;
    match (upper, lower) {
        (Some(line), _) => Ok(Some(WinningLine::First(line))),
        (None, Some(line)) => Ok(Some(WinningLine::Second(line))),
        (None, None) => Ok(None),
    }
}
