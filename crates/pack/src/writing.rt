// Rows and blocks as bytes.
ghost use Rattle.std.specs.Prelude.{◌≡◌, ◌≤◌, ◌++◌, length, IfOk, OnOk};
ghost use Rattle.blocks.specs.Numbers.{big_endian};
ghost use Rattle.blocks.specs.Writing.{row_bytes, block, packed};
ghost use Rattle.table.specs.Rows.{plain, view, most_rows};

use blocks::check::BODY_BYTES;
use blocks::{BLOCK_BYTES, BLOCK_ROWS, WIDTHS, check_sum};
use std::alloc::{AllocError, Global};
use table::Row;

// Appends the lowest bytes of the value, the most significant first.
fn append_number(out: &mut Vec<u8>, value: u32, width: usize) -> Result<(), AllocError>
    requires { width ≤ 4 }
    ensures { OnOk result (out.new.items ≡ out.old.items ++ big_endian width value) }
{
    let bytes = value.to_be_bytes();
    out.extend_from_slice(&bytes[4 - width..])
}

// Appends a row: the low and the high end of each field, the decision, and the kind's number.
fn append_row(out: &mut Vec<u8>, kind: u8, row: &Row) -> Result<(), AllocError>
    ensures { OnOk result (out.new.items ≡ out.old.items ++ row_bytes kind (plain row.now)) }
{
    let ranges = row.region.to_array();
    for (width, range) in WIDTHS.iter().zip(ranges.iter()) {
        append_number(out, range.low, *width)?;
        append_number(out, range.high, *width)?;
    }
    out.extend_from_slice(&[row.decision, kind])
}

// The block with this number and these rows.
fn block_bytes(heap: Global, kind: u8, number: u32, rows: &[Row]) -> Result<Vec<u8>, AllocError>
    requires { length rows.now ≤ 18 }
    ensures { IfOk result (λ bytes. bytes.items ≡ block kind number (view rows.now)) }
{
    let mut bytes = Vec::with_capacity(heap, BLOCK_BYTES)?;
    append_number(&mut bytes, rows.len() as u32, 2)?;
    append_number(&mut bytes, number, 2)?;
    for row in rows {
        append_row(&mut bytes, kind, row)?;
    }
    bytes.resize(BODY_BYTES, 0)?;
    let check = check_sum(&bytes);
    append_number(&mut bytes, check, 4)?;
    Ok(bytes)
}

// The packed form of a table: its rows in blocks of 18.
pub(crate) fn packed_bytes(heap: Global, kind: u8, rows: &[Row]) -> Result<Vec<u8>, AllocError>
    requires { length rows.now ≤ most_rows }
    ensures { IfOk result (λ bytes. bytes.items ≡ packed kind (view rows.now)) }
{
    let mut bytes = Vec::new(heap);
    for (number, part) in rows.chunks(BLOCK_ROWS).enumerate() {
        let block = block_bytes(heap, kind, number as u32, part)?;
        bytes.extend_from_slice(&block)?;
    }
    Ok(bytes)
}
