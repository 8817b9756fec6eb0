// The row that holds a packet.
ghost use Rattle.std.specs.Prelude.{◌≡◌, ◌<◌, true};
ghost use Rattle.packet.specs.Packets.{values, tops, place};
ghost use Rattle.packet.specs.Regions.{range_at};
ghost use Rattle.theory.specs.Steps.{passes};
ghost use Rattle.theory.specs.Tables.{lookup};
ghost use Rattle.theory.specs.Holding.{held, before};
ghost use Rattle.blocks.specs.Writing.{widths};
ghost use Rattle.blocks.specs.Reading.{ranges_of, row_of, row_slice, rows_in};

use crate::reading::DECISION;
use crate::rows::Rows;
use packet::{Field, Packet, Range};

// Rows that are nested.
#[derive(Clone, Copy)]
pub(crate) struct Nested<'a> {
    pub(crate) rows: Rows<'a>,
    ghost nested: { passes tops (rows_in rows.bytes.now) ≡ true },
}

impl Nested<'_> {
    // The place of the row that holds the packet, halving the rows that are left at each step: a packet comes before exactly the
    // rows behind its own. The rows stand 18 to a block, with other bytes between, so that no slice has them all.
    fn holding(&self, packet: Packet) -> usize
        ensures bound { result < self.now.rows.count }
        ensures ranges { ranges_of widths (row_slice self.now.rows.bytes.now result) ≡ held (rows_in self.now.rows.bytes.now) (values packet) }
        ensures decision { (row_of (row_slice self.now.rows.bytes.now result)).decision ≡ lookup (rows_in self.now.rows.bytes.now) (values packet) }
    {
        let mut low = 0;
        let mut high = self.rows.count;
        while high - low > 1 {
            let middle = low + (high - low) / 2;
            if is_before(&self.rows.ranges(middle), packet) {
                high = middle;
            } else {
                low = middle;
            }
        }
        low
    }

    // Its decision.
    pub(crate) fn decision(&self, packet: Packet) -> u8
        ensures { result ≡ lookup (rows_in self.now.rows.bytes.now) (values packet) }
    {
        self.rows.row(self.holding(packet))[DECISION]
    }

    // Where its range on the field ends.
    pub(crate) fn end(&self, field: Field, packet: Packet) -> u32
        ensures { result ≡ (range_at (held (rows_in self.now.rows.bytes.now) (values packet)) (place field)).high }
    {
        self.rows.ranges(self.holding(packet))[field.index()].high
    }
}

// Does the packet come before the ranges? On the first field whose range does not hold its value, the value is below the range. A loop,
// since `find` would put together each range that it gives.
fn is_before(ranges: &[Range<u32>; Field::COUNT], packet: Packet) -> bool
    ensures { result ≡ before ranges.now (values packet) }
{
    for (range, value) in ranges.iter().zip(&packet.to_array()) {
        if *value < range.low {
            return true;
        }
        if *value > range.high {
            return false;
        }
    }
    false
}
