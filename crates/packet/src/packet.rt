// Packets and their order.
ghost use Rattle.std.specs.Prelude.{◌≡◌, ◌≤◌, min, slice_index, slice_set};
ghost use Rattle.packet.specs.Packets.{values, tops, place, Within, earlier};

use crate::field::Field;

#[derive(Clone, Copy, PartialEq, Eq, PartialOrd, Ord, Debug, Default)]
pub struct Packet {
    pub source: u32,
    pub source_port: u16,
    pub destination: u32,
    pub destination_port: u16,
    pub protocol: u8,
}

impl Packet {
    // The packet with the largest value in each field. The one with 0 in each is the default.
    pub const LARGEST: Packet = Packet {
        source: u32::MAX,
        source_port: u16::MAX,
        destination: u32::MAX,
        destination_port: u16::MAX,
        protocol: u8::MAX,
    };

    // The value of one field.
    pub fn get(self, field: Field) -> u32
        ensures value { result ≡ slice_index (values self) (place field) }
        ensures bound { result ≤ slice_index tops (place field) }
    {
        self.to_array()[field.index()]
    }

    // The packet with another value of one field; a value above the field's largest counts as the largest. Written field by field, since
    // each narrows to its own width.
    pub fn with(self, field: Field, value: u32) -> Packet
        ensures { values result ≡ slice_set (values self) (place field) (min value (slice_index tops (place field))) }
    {
        let value = value.min(field.top());
        match field {
            Field::Source => Packet {
                source: value,
                ..self
            },
            Field::SourcePort => Packet {
                source_port: value as u16,
                ..self
            },
            Field::Destination => Packet {
                destination: value,
                ..self
            },
            Field::DestinationPort => Packet {
                destination_port: value as u16,
                ..self
            },
            Field::Protocol => Packet {
                protocol: value as u8,
                ..self
            },
        }
    }

    // The values of all fields, in their order.
    pub fn to_array(self) -> [u32; Field::COUNT]
        ensures value { result ≡ values self }
        ensures within { Within tops (values self) }
    {
        [
            self.source,
            u32::from(self.source_port),
            self.destination,
            u32::from(self.destination_port),
            u32::from(self.protocol),
        ]
    }

    // Does this packet come before the other? The first field in which they differ decides: the derived order, said of
    // the packets' values.
    pub fn is_earlier(self, other: Packet) -> bool
        ensures { result ≡ earlier (values self) (values other) }
    {
        self < other
    }
}
