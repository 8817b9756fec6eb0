// A table: packed bytes without damage, and what holds of them.
ghost use Rattle.std.specs.Prelude.{◌≡◌, ◌*◌, ◌/◌, ◌≤◌, true, length};
ghost use Rattle.packet.specs.Packets.{tops};
ghost use Rattle.theory.specs.Steps.{passes};
ghost use Rattle.blocks.specs.Reading.{row_count, rows_in};

use std::marker::PhantomData;

mod opened;
pub mod source;

// Packed bytes whose rows are nested, over decisions of the kind K. The table owns a copy of its bytes, and what holds of them
// is said of its own; `nested` lends its rows. The count is kept, so that the last block need not be read for it again.
#[derive(Drop)]
pub struct Table<K> {
    bytes: Vec<u8>,
    rows: usize,
    kind: PhantomData<K>,
    ghost count: { rows ≡ row_count bytes.items },
    ghost room: { rows ≤ 18 * (length bytes.items / 512) },
    ghost nested: { passes tops (rows_in bytes.items) ≡ true },
}
