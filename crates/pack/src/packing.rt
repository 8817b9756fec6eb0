// A source's table, written into given bytes.
ghost use Rattle.std.specs.Prelude.{◌≡◌, ◌/◌, length};
ghost use Rattle.packet.specs.Packets.{tops};
ghost use Rattle.theory.specs.Tables.{table};
ghost use Rattle.blocks.specs.Writing.{packed};
ghost use Rattle.pack.specs.Packing.{Packs, left_by};

use crate::writing::packed_bytes;
use blocks::{BLOCK_BYTES, BLOCK_ROWS};
use decision::Kind;
use policy::Source;
use std::alloc::Global;
use table::{PackRefusal, rows_of};

// Writes the source's table to the front of the lent bytes, and answers its number of rows. The bytes behind the last block stay, and
// after a refusal all do.
pub fn pack<K: Kind, S: Source<K>>(
    heap: Global,
    source: &S,
    bytes: &mut [u8],
) -> Result<usize, PackRefusal>
    ensures answer { Packs (length bytes.old / 512) (length (table tops (S.Source.meaning source.now))) result }
    ensures bytes { bytes.new ≡ left_by result (packed K.Kind.NUMBER (table tops (S.Source.meaning source.now))) bytes.old }
{
    let rows = rows_of::<K, S>(heap, source)?;
    let blocks = rows.len().div_ceil(BLOCK_ROWS);
    if blocks > bytes.len() / BLOCK_BYTES {
        return Err(PackRefusal::TooLarge);
    }
    let written = packed_bytes(heap, K::NUMBER, &rows)?;
    bytes[0..written.len()].copy_from_slice(&written);
    Ok(rows.len())
}
