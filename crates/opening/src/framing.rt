// The tests of one block.
ghost use Rattle.std.specs.Prelude.{◌≡◌, ◌+◌, ◌*◌, ◌/◌, ◌<◌, ◌≤◌, true, false, ◌&&◌, length, take, drop, ◌==◌, MatchOption};
ghost use Rattle.std.specs.List.{list_all, position};
ghost use Rattle.blocks.specs.Reading.{count_in, number_in, unused_in};
ghost use Rattle.opening.specs.Answers.{unless};
ghost use Rattle.opening.specs.Damages.{is_count, framed_block, foreign_row, found, first, block_damage};
ghost use Rattle.damage.specs.declared.damage.Damage.TheVariants.{Foreign};

use crate::reading::{DECISION, KIND, number_of};
use crate::rows::{FIRST_ROW, block_at, places_in};
use blocks::check::BODY_BYTES;
use blocks::{BLOCK_BYTES, BLOCK_ROWS, ROW_BYTES, check_sum};
use damage::Damage;
use decision::Kind;

// The block's first damage, if it has any.
pub(crate) fn check_block<K: Kind>(bytes: &[u8], number: usize) -> Result<(), Damage>
    requires { (number < length bytes.now / 512) × (length bytes.now ≤ 32768) }
    ensures { result ≡ unless (block_damage K.Kind.NUMBER K.Kind.COUNT bytes.now number) tt }
{
    let block = block_at(bytes, number);
    if number_of(&block[BODY_BYTES..BLOCK_BYTES]) != check_sum(block) {
        return Err(Damage::Check(number));
    }
    let is_last = number + 1 >= bytes.len() / BLOCK_BYTES;
    let Some(count) = framed_count(block, number, is_last) else {
        return Err(Damage::Frame(number));
    };
    check_rows::<K>(block, BLOCK_ROWS * number, count)
}

// The block's count of rows, if this and its number are right, and its unused bytes 0.
#[tactic(auto, using(crate::proofs::Tests::zero_is))]
fn framed_count(block: &[u8; BLOCK_BYTES], number: usize, is_last: bool) -> Option<usize>
    ensures { MatchOption result (framed_block is_last number block.now ≡ false) (λ count. (count ≡ count_in block.now) × (count ≤ 18) × (framed_block is_last number block.now ≡ true)) }
{
    let count = number_of(&block[..2]) as usize;
    if is_count(count, is_last)
        && number_of(&block[2..4]) as usize == number
        && is_zero(&block[FIRST_ROW + ROW_BYTES * count..BODY_BYTES])
    {
        Some(count)
    } else {
        None
    }
}

// May a block have so many rows?
fn is_count(count: usize, is_last: bool) -> bool
    ensures value { result ≡ is_count is_last count }
    ensures bound { result ≡ true → count ≤ 18 }
{
    if is_last {
        (1..=BLOCK_ROWS).contains(&count)
    } else {
        count == BLOCK_ROWS
    }
}

// Is every byte 0?
fn is_zero(bytes: &[u8]) -> bool
    ensures { result ≡ list_all (λ b. b == 0) bytes.now }
{
    bytes.iter().all(|byte| *byte == 0)
}

// Has the row another kind's number, or a decision that is none of the kind's?
fn is_foreign<K: Kind>(row: &[u8; ROW_BYTES]) -> bool
    ensures { result ≡ foreign_row K.Kind.NUMBER K.Kind.COUNT row.now }
{
    row[KIND] != K::NUMBER || row[DECISION] >= K::COUNT
}

// The place of the first that is.
fn first_foreign<K: Kind>(rows: &[[u8; ROW_BYTES]]) -> Option<usize>
    ensures { result ≡ position (foreign_row K.Kind.NUMBER K.Kind.COUNT) rows.now }
{
    rows.iter().position(|row| is_foreign::<K>(row))
}

// The first foreign one of a block's `count` rows; `start` is the place of the first of them in the table.
fn check_rows<K: Kind>(block: &[u8; BLOCK_BYTES], start: usize, count: usize) -> Result<(), Damage>
    requires { (count ≤ 18) × (start ≤ 1152) }
    ensures { result ≡ unless (first count (λ j. found (foreign_row K.Kind.NUMBER K.Kind.COUNT (take 28 (drop (4 + 28 * j) block.now))) (Foreign (start + j)))) tt }
{
    match first_foreign::<K>(&places_in(block)[..count]) {
        Some(j) => Err(Damage::Foreign(start + j)),
        None => Ok(()),
    }
}
