// Regions: one range for each field.
ghost use Rattle.std.specs.Prelude.{◌≡◌, ◌≤◌, slice_index, slice_set};
ghost use Rattle.std.specs.List.{zip, list_all};
ghost use Rattle.packet.specs.Packets.{values, tops, place};
ghost use Rattle.packet.specs.Regions.{ranges, Fit, inside, holds, any_reversed, clamped, range_at};

use crate::field::Field;
use crate::packet::Packet;
use crate::range::Range;

#[derive(Clone, Copy, PartialEq, Eq, Debug)]
pub struct Region {
    pub source: Range<u32>,
    pub source_port: Range<u16>,
    pub destination: Range<u32>,
    pub destination_port: Range<u16>,
    pub protocol: Range<u8>,
}

// Does each range hold the value at its place?
fn all_hold(ranges: &[Range<u32>], values: &[u32]) -> bool
    ensures { result ≡ list_all (λ q. inside q.0 q.1) (zip ranges.now values.now) }
{
    ranges
        .iter()
        .zip(values)
        .all(|(range, value)| range.contains(*value))
}

impl Region {
    // Every packet.
    pub const EVERYTHING: Region = Region {
        source: Range {
            low: 0,
            high: Packet::LARGEST.source,
        },
        source_port: Range {
            low: 0,
            high: Packet::LARGEST.source_port,
        },
        destination: Range {
            low: 0,
            high: Packet::LARGEST.destination,
        },
        destination_port: Range {
            low: 0,
            high: Packet::LARGEST.destination_port,
        },
        protocol: Range {
            low: 0,
            high: Packet::LARGEST.protocol,
        },
    };

    // The ranges of all fields, in their order.
    pub fn to_array(self) -> [Range<u32>; Field::COUNT]
        ensures value { result ≡ ranges self }
        ensures fit { Fit tops (ranges self) }
    {
        [
            self.source.widened(),
            self.source_port.widened(),
            self.destination.widened(),
            self.destination_port.widened(),
            self.protocol.widened(),
        ]
    }

    // The range of one field.
    pub fn range(self, field: Field) -> Range<u32>
        ensures { result ≡ range_at (ranges self) (place field) }
    {
        self.to_array()[field.index()]
    }

    // The region with another range on one field; an end above the field's largest value counts as the largest. Written field by field,
    // since each narrows to its own width.
    pub fn with(self, field: Field, range: Range<u32>) -> Region
        ensures { ranges result ≡ slice_set (ranges self) (place field) (clamped (slice_index tops (place field)) range) }
    {
        let low = range.low.min(field.top());
        let high = range.high.min(field.top());
        match field {
            Field::Source => Region {
                source: Range { low, high },
                ..self
            },
            Field::SourcePort => Region {
                source_port: Range {
                    low: low as u16,
                    high: high as u16,
                },
                ..self
            },
            Field::Destination => Region {
                destination: Range { low, high },
                ..self
            },
            Field::DestinationPort => Region {
                destination_port: Range {
                    low: low as u16,
                    high: high as u16,
                },
                ..self
            },
            Field::Protocol => Region {
                protocol: Range {
                    low: low as u8,
                    high: high as u8,
                },
                ..self
            },
        }
    }

    // Does the packet lie in the region?
    pub fn contains(self, packet: Packet) -> bool
        ensures { result ≡ holds (ranges self) (values packet) }
    {
        all_hold(&self.to_array(), &packet.to_array())
    }

    // Is a range of the region reversed?
    pub fn is_reversed(self) -> bool
        ensures { result ≡ any_reversed (ranges self) }
    {
        self.to_array().iter().any(|range| range.is_reversed())
    }
}
