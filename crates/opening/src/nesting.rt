// The tests of nested rows, from each row to the next.
ghost use Rattle.std.specs.Prelude.{◌≡◌, ◌<◌, not, ◌&&◌, length, drop, None, Some, ◌==◌, IfSome, MatchResult};
ghost use Rattle.std.specs.List.{list_all, list_any, position, zip};
ghost use Rattle.packet.specs.Packets.{tops};
ghost use Rattle.packet.specs.Regions.{reversed, any_reversed};
ghost use Rattle.theory.specs.Steps.{follows};
ghost use Rattle.theory.specs.Neighbours.{first_difference};
ghost use Rattle.blocks.specs.Reading.{rows_in};
ghost use Rattle.opening.specs.Damages.{nesting_damage};

use crate::rows::Rows;
use crate::search::Nested;
use damage::Damage;
use packet::{Field, Packet, Range};

// The rows, if they are nested. Else the first at which the rows so far begin no nested list, or the count of rows if the list ends
// short.
pub(crate) fn check_nesting(rows: Rows<'_>) -> Result<Nested<'_>, Damage>
    requires { 0 < rows.count }
    ensures { MatchResult result (λ nested. (nested.rows ≡ rows.entry) × (nesting_damage (rows_in rows.entry.bytes.now) ≡ None)) (λ damage. nesting_damage (rows_in rows.entry.bytes.now) ≡ Some damage) }
{
    let mut last = rows.ranges(0);
    if is_any_reversed(&last) || !start_at_zero(&last, 0) {
        return Err(Damage::NotNested(0));
    }
    // By number: a damage names its row, and no slice has all rows.
    for row in 1..rows.count {
        let ranges = rows.ranges(row);
        if is_any_reversed(&ranges) || !follow(&last, &ranges) {
            return Err(Damage::NotNested(row));
        }
        last = ranges;
    }
    if !end_at_largest(&last, 0) {
        return Err(Damage::NotNested(rows.count));
    }
    Ok(Nested { rows })
}

// Is a range reversed?
fn is_any_reversed(ranges: &[Range<u32>]) -> bool
    ensures { result ≡ list_any reversed ranges.now }
{
    ranges.iter().any(|range| range.is_reversed())
}

// May these ranges stand right behind the others? On the first field in which they differ they begin one past the others' end;
// on the later ones the others are at their end, and these at their start.
fn follow(left: &[Range<u32>; Field::COUNT], right: &[Range<u32>; Field::COUNT]) -> bool
    ensures { result ≡ follows tops left.now right.now }
{
    let Some(field) = first_difference(left, right) else {
        return false;
    };
    if u64::from(left[field].high) + 1 != u64::from(right[field].low) {
        return false;
    }
    end_at_largest(left, field + 1) && start_at_zero(right, field + 1)
}

// The place of the first field in which the ranges differ.
pub(crate) fn first_difference(
    left: &[Range<u32>; Field::COUNT],
    right: &[Range<u32>; Field::COUNT],
) -> Option<usize>
    ensures bound { IfSome result (λ field. field < length tops) }
    ensures value { result ≡ position (λ p. not (p.0.low == p.1.low && p.0.high == p.1.high)) (zip left.now right.now) }
{
    left.iter().zip(right).position(|(a, b)| a != b)
}

// Does each range from the field on begin at 0?
fn start_at_zero(ranges: &[Range<u32>; Field::COUNT], from: usize) -> bool
    ensures { result ≡ list_all (λ range. range.low == 0) (drop from ranges.now) }
{
    ranges.iter().skip(from).all(|range| range.low == 0)
}

// Does each range from the field on end at its field's largest value?
fn end_at_largest(ranges: &[Range<u32>; Field::COUNT], from: usize) -> bool
    ensures { result ≡ list_all (λ p. p.0.high == p.1) (drop from (zip ranges.now tops)) }
{
    let largest = Packet::LARGEST.to_array();
    ranges
        .iter()
        .zip(&largest)
        .skip(from)
        .all(|(range, top)| range.high == *top)
}
