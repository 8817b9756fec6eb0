// Looking packed bytes over, and deciding on them in place.
ghost use Rattle.std.specs.Prelude.{◌≡◌, Some, None, MatchResult};
ghost use Rattle.packet.specs.Packets.{values};
ghost use Rattle.blocks.specs.Reading.{rows_in};
ghost use Rattle.opening.specs.Answers.{inspected, decided_on};
ghost use Rattle.opening.specs.Damages.{damage_of};
ghost use Rattle.opening.specs.Words.{Says};

use crate::alike::check_neighbours;
use crate::framing::check_block;
use crate::nesting::check_nesting;
use crate::reading::number_of;
use crate::rows::{Rows, block_at};
use crate::search::Nested;
use blocks::{BLOCK_BYTES, BLOCK_ROWS};
use damage::Damage;
use decision::Kind;
use packet::Packet;

// The most bytes that a packed table has: 64 blocks.
const MOST_BYTES: usize = 32_768;

// The count of rows, or the first damage. Nothing is allocated.
#[tactic(auto, using(crate::specs::WordsLemmas::says))]
pub fn inspect<K: Kind>(bytes: &[u8]) -> Result<usize, Damage>
    ensures answer { result ≡ inspected K.Kind.NUMBER K.Kind.COUNT bytes.now }
    ensures words { Says (damage_of K.Kind.NUMBER K.Kind.COUNT bytes.now) (rows_in bytes.now) }
{
    if bytes.is_empty() || bytes.len() % BLOCK_BYTES != 0 || bytes.len() > MOST_BYTES {
        return Err(Damage::Length);
    }
    let blocks = bytes.len() / BLOCK_BYTES;
    // By number: a damage names its block.
    for number in 0..blocks {
        check_block::<K>(bytes, number)?;
    }
    let last = number_of(&block_at(bytes, blocks - 1)[..2]) as usize;
    let count = BLOCK_ROWS * (blocks - 1) + last;
    let nested = check_nesting(Rows { bytes, count })?;
    check_neighbours(&nested)?;
    Ok(count)
}

// The decision of the row that holds the packet, or the first damage of the bytes. Nothing is allocated.
pub fn decide_packed<K: Kind>(bytes: &[u8], packet: &Packet) -> Result<u8, Damage>
    ensures { result ≡ decided_on K.Kind.NUMBER K.Kind.COUNT bytes.now (values packet.now) }
{
    let nested = whole_table::<K>(bytes)?;
    Ok(nested.decision(*packet))
}

// The rows of the bytes, or the first damage.
pub(crate) fn whole_table<K: Kind>(bytes: &[u8]) -> Result<Nested<'_>, Damage>
    ensures { MatchResult result (λ nested. (nested.rows.bytes.now ≡ bytes.now) × (damage_of K.Kind.NUMBER K.Kind.COUNT bytes.now ≡ None)) (λ damage. damage_of K.Kind.NUMBER K.Kind.COUNT bytes.now ≡ Some damage) }
{
    let count = inspect::<K>(bytes)?;
    let rows = Rows { bytes, count };
    Ok(Nested { rows })
}
