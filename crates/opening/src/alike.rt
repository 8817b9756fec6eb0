// The test of neighbouring ranges: no two may be alike.
ghost use Rattle.std.specs.Prelude.{◌≡◌, ◌<◌, ◌++◌, take, drop};
ghost use Rattle.packet.specs.Packets.{values, tops};
ghost use Rattle.theory.specs.Tables.{lookup};
ghost use Rattle.theory.specs.Neighbours.{alike, starts_alike};
ghost use Rattle.blocks.specs.Reading.{rows_in};
ghost use Rattle.opening.specs.Answers.{unless};
ghost use Rattle.opening.specs.Damages.{neighbour_damage};

use crate::nesting::first_difference;
use crate::reading::low_ends;
use crate::search::Nested;
use damage::Damage;
use packet::{Field, Packet};

// The first row that starts a range alike its left neighbour. Rows are gone through by number, since no slice has them all.
pub(crate) fn check_neighbours(nested: &Nested<'_>) -> Result<(), Damage>
    ensures { result ≡ unless (neighbour_damage (rows_in nested.now.rows.bytes.now)) tt }
{
    for row in 1..nested.rows.count {
        if starts_alike(nested, row) {
            return Err(Damage::NotReduced(row));
        }
    }
    Ok(())
}

// Does the row start a range that is alike its left neighbour?
fn starts_alike(nested: &Nested<'_>, row: usize) -> bool
    requires { (0 < row) × (row < nested.now.rows.count) }
    ensures { result ≡ starts_alike tops (rows_in nested.now.rows.bytes.now) row }
{
    let left = nested.rows.ranges(row - 1);
    let right = nested.rows.ranges(row);
    let field = match first_difference(&left, &right) {
        Some(field) => field + 1,
        None => Field::COUNT,
    };
    are_alike(nested, field, low_ends(&left), low_ends(&right))
}

// Do all values of the fields from `field` on get equal decisions, under the values of `left` and of `right` on the fields before?
// From each value the loop goes on behind the range that holds it, so that there is no list of values to go through.
fn are_alike(nested: &Nested<'_>, field: usize, left: Packet, right: Packet) -> bool
    ensures { result ≡ alike (drop field tops) (λ q. lookup (rows_in nested.now.rows.bytes.now) (take field (values left) ++ q)) (λ q. lookup (rows_in nested.now.rows.bytes.now) (take field (values right) ++ q)) }
{
    let Some(here) = Field::at(field) else {
        return nested.decision(left) == nested.decision(right);
    };
    let mut value = 0;
    loop {
        let first = left.with(here, value);
        let second = right.with(here, value);
        if !are_alike(nested, field + 1, first, second) {
            return false;
        }
        let end = nested.end(here, first).min(nested.end(here, second));
        if end >= here.top() {
            return true;
        }
        value = end + 1;
    }
}
