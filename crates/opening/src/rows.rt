// The rows of packed bytes.
ghost use Rattle.std.specs.Prelude.{◌≡◌, ℕ, ◌+◌, ◌*◌, ◌/◌, ◌<◌, ◌≤◌, [], map, length, take, drop, slice_index_or};
ghost use Rattle.packet.specs.declared.range.Range.{Range as Span};
ghost use Rattle.packet.specs.Packets.{values, tops};
ghost use Rattle.packet.specs.Regions.{Fit};
ghost use Rattle.blocks.specs.Writing.{widths};
ghost use Rattle.blocks.specs.Reading.{ranges_of, block_at, row_slice, row_count};

use crate::reading::ranges_in;
use blocks::check::BODY_BYTES;
use blocks::{BLOCK_BYTES, BLOCK_ROWS, ROW_BYTES};
use packet::{Field, Range};

// Where the rows of a block begin.
pub(crate) const FIRST_ROW: usize = 4;

// The block with a number.
pub(crate) fn block_at(bytes: &[u8], number: usize) -> &[u8; BLOCK_BYTES]
    requires { number < length bytes.now / 512 }
    ensures { result.now ≡ block_at bytes.now number }
{
    let (blocks, _) = bytes.as_chunks::<BLOCK_BYTES>();
    &blocks[number]
}

// The 18 places for rows in a block.
pub(crate) fn places_in(block: &[u8; BLOCK_BYTES]) -> &[[u8; ROW_BYTES]]
    ensures rows { (j : ℕ) → j < 18 → slice_index_or result.now j [] ≡ take 28 (drop (4 + 28 * j) block.now) }
    ensures len { length result.now ≡ 18 }
{
    let (places, _) = block[FIRST_ROW..BODY_BYTES].as_chunks::<ROW_BYTES>();
    places
}

// Packed bytes, and how many rows stand in them.
#[derive(Clone, Copy)]
pub(crate) struct Rows<'a> {
    pub(crate) bytes: &'a [u8],
    pub(crate) count: usize,
    ghost counted: { count ≡ row_count bytes.now },
    ghost room: { count ≤ 18 * (length bytes.now / 512) },
}

impl Rows<'_> {
    // The row at a place.
    pub(crate) fn row(&self, index: usize) -> &[u8; ROW_BYTES]
        requires { index < self.now.count }
        ensures { result.now ≡ row_slice self.now.bytes.now index }
    {
        let block = block_at(self.bytes, index / BLOCK_ROWS);
        &places_in(block)[index % BLOCK_ROWS]
    }

    // Its ranges.
    pub(crate) fn ranges(&self, index: usize) -> [Range<u32>; Field::COUNT]
        requires { index < self.now.count }
        ensures value { result ≡ ranges_of widths (row_slice self.now.bytes.now index) }
        ensures fit { Fit tops result }
    {
        ranges_in(self.row(index))
    }
}
