// Where the fields stand in a row.
ghost use Rattle.std.specs.Prelude.{◌≡◌, slice_index};
ghost use Rattle.packet.specs.Packets.{place};
ghost use Rattle.blocks.specs.Reading.{field_start};
ghost use Rattle.blocks.specs.Writing.{widths};

use packet::Field;

// The bytes that a value of each field takes, in the order of the fields.
pub const WIDTHS: [usize; Field::COUNT] = [4, 2, 4, 2, 1];

// The bytes that a value of the field takes.
pub fn width(field: Field) -> usize
    ensures { result ≡ slice_index widths (place field) }
{
    WIDTHS[field.index()]
}

// Where in a row the field's low end begins; its high end follows. As numbers, since a sum of the widths before it would be longer to
// bound than to write.
pub fn start(field: Field) -> usize
    ensures { result ≡ field_start widths (place field) }
{
    match field {
        Field::Source => 0,
        Field::SourcePort => 8,
        Field::Destination => 12,
        Field::DestinationPort => 20,
        Field::Protocol => 24,
    }
}
