// The rows of a source.
ghost use Rattle.std.specs.Prelude.{◌≡◌, ◌+◌, ◌≤◌, ◌++◌, map, length, drop, IfOk, IfErr, vec_len, Decides, OnOk};
ghost use Rattle.packet.specs.Packets.{values, tops, place};
ghost use Rattle.theory.specs.Tables.{table, Canonical};
ghost use Rattle.table.specs.Rows.{view, most_rows};
ghost use Rattle.table.specs.Refusals.{Refuses};
ghost use Rattle.table.specs.Parts.{before, AreLast, table_from, uncut, cut};

use crate::refusal::PackRefusal;
use crate::row::Row;
use decision::Kind;
use packet::{Field, Packet, Range, Region};
use policy::Source;
use std::alloc::Global;

const MOST_ROWS: usize = 1_152;

// The table of the source. It is refused as soon as it is known to have more than 1,152 rows.
pub fn rows_of<K: Kind, S: Source<K>>(heap: Global, source: &S) -> Result<Vec<Row>, PackRefusal>
    ensures rows { IfOk result (λ rows. view rows.items ≡ table tops (S.Source.meaning source.now)) }
    ensures canonical { IfOk result (λ rows. Canonical tops (S.Source.meaning source.now) (view rows.items)) }
    ensures few { IfOk result (λ rows. vec_len rows ≤ most_rows) }
    ensures refused { IfErr result (λ e. Refuses e (length (table tops (S.Source.meaning source.now)))) }
{
    let mut rows = Vec::new(heap);
    append_table(&mut rows, source, &Field::ALL, Packet::default())?;
    Ok(rows)
}

// Puts behind `rows` the table of what is left of the source for the last fields once those before have the values of `at`.
fn append_table<K: Kind, S: Source<K>>(
    rows: &mut Vec<Row>,
    source: &S,
    fields: &[Field],
    at: Packet,
) -> Result<(), PackRefusal>
    requires { AreLast fields.now }
    ensures rows { OnOk result (view rows.new.items ≡ view rows.old.items ++ uncut (before fields.now) (table_from (S.Source.meaning source.now) (before fields.now) (values at))) }
    ensures few { OnOk result ((vec_len rows.old ≤ vec_len rows.new) × (vec_len rows.new ≤ vec_len rows.old + most_rows)) }
    ensures refused { IfErr result (λ e. Refuses e (length (table_from (S.Source.meaning source.now) (before fields.now) (values at)))) }
{
    let [here, later @ ..] = fields else {
        let decision = source.decide(&at);
        rows.push(Row {
            region: Region::EVERYTHING,
            decision,
        })?;
        return Ok(());
    };
    let here = *here;
    let top = here.top();
    let base = rows.len();
    let first = at.with(here, 0);
    append_table(rows, source, later, first)?;
    let mut start = base;
    let mut low = 0;
    let mut high = source.edge(here, &first);
    // The step is the source's edge and not one value, so that no range is gone through.
    while high < top {
        let end = rows.len();
        let next = at.with(here, high + 1);
        append_table(rows, source, later, next)?;
        if are_same(&rows[start..end], &rows[end..]) {
            rows.truncate(end);
        } else {
            if rows.len() - base > MOST_ROWS {
                return Err(PackRefusal::TooLarge);
            }
            narrow(&mut rows[start..end], here, Range { low, high });
            start = end;
            low = high + 1;
        }
        high = source.edge(here, &next);
    }
    narrow(&mut rows[start..], here, Range { low, high });
    Ok(())
}

// Are the rows the same?
fn are_same(first: &[Row], second: &[Row]) -> bool
    ensures { Decides result (view first.now ≡ view second.now) }
{
    first == second
}

// Gives the rows this range on the field.
fn narrow(rows: &mut [Row], field: Field, range: Range<u32>)
    ensures { view rows.new ≡ map (cut (place field) range) (view rows.old) }
{
    for row in rows {
        row.region = row.region.with(field, range);
    }
}
