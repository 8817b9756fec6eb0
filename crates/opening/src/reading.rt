// Numbers and ranges out of the bytes of a block or a row.
ghost use Rattle.std.specs.Prelude.{◌≡◌, ℕ, ◌^◌, ◌<◌, ◌≤◌, map, length, slice_index};
ghost use Rattle.packet.specs.declared.range.Range.{Range as Span};
ghost use Rattle.packet.specs.Packets.{values, tops, place};
ghost use Rattle.packet.specs.Regions.{Fit, range_at};
ghost use Rattle.blocks.specs.Numbers.{number_of};
ghost use Rattle.blocks.specs.Writing.{widths};
ghost use Rattle.blocks.specs.Reading.{ranges_of};

use blocks::{ROW_BYTES, start, width};
use packet::{Field, Packet, Range};

// Where in a row its decision and its kind stand.
pub(crate) const DECISION: usize = 26;

pub(crate) const KIND: usize = 27;

// The number that up to four bytes stand for, the most significant first; `from_be_bytes` takes four.
pub(crate) fn number_of(bytes: &[u8]) -> u32
    requires { length bytes.now ≤ 4 }
    ensures value { result ≡ number_of bytes.now }
    ensures bound { result < 256 ^ length bytes.now }
{
    u32::from_be_bytes(match *bytes {
        [] => [0, 0, 0, 0],
        [d] => [0, 0, 0, d],
        [c, d] => [0, 0, c, d],
        [b, c, d] => [0, b, c, d],
        [a, b, c, d, ..] => [a, b, c, d],
    })
}

// The range of a field in a row.
pub(crate) fn range_in(row: &[u8; ROW_BYTES], field: Field) -> Range<u32>
    ensures value { result ≡ range_at (ranges_of widths row.now) (place field) }
    ensures fit { (result.low ≤ slice_index tops (place field)) × (result.high ≤ slice_index tops (place field)) }
{
    let low = start(field);
    let high = low + width(field);
    Range {
        low: number_of(&row[low..high]),
        high: number_of(&row[high..high + width(field)]),
    }
}

// The ranges of a row.
pub(crate) fn ranges_in(row: &[u8; ROW_BYTES]) -> [Range<u32>; Field::COUNT]
    ensures value { result ≡ ranges_of widths row.now }
    ensures fit { Fit tops result }
{
    Field::ALL.map(|field| range_in(row, field))
}

// The packet of the ranges' low ends.
pub(crate) fn low_ends(ranges: &[Range<u32>; Field::COUNT]) -> Packet
    requires { Fit tops ranges.now }
    ensures { values result ≡ map (λ (range : Span ℕ). range.low) ranges.now }
{
    let mut packet = Packet::default();
    for field in Field::ALL {
        packet = packet.with(field, ranges[field.index()].low);
    }
    packet
}
