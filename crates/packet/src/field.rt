// The fields of a packet, in their order.
ghost use Rattle.std.specs.Prelude.{◌≡◌, ◌<◌, ◌≤◌, length, MatchOption, slice_index};
ghost use Rattle.packet.specs.Packets.{tops, place};

use crate::packet::Packet;

#[derive(Clone, Copy, PartialEq, Eq, Debug)]
pub enum Field {
    Source,
    SourcePort,
    Destination,
    DestinationPort,
    Protocol,
}

impl Field {
    pub const COUNT: usize = 5;

    // All fields, in their order.
    pub const ALL: [Field; Field::COUNT] = [
        Field::Source,
        Field::SourcePort,
        Field::Destination,
        Field::DestinationPort,
        Field::Protocol,
    ];

    // The field at a place counted from 0; none past the last.
    pub fn at(index: usize) -> Option<Field>
        ensures { MatchOption result (length tops ≤ index) (λ field. place field ≡ index) }
    {
        Field::ALL.get(index).copied()
    }

    // The field's place, counted from 0.
    pub fn index(self) -> usize
        ensures value { result ≡ place self }
        ensures bound { result < length tops }
    {
        self as usize
    }

    // The field's largest value.
    pub fn top(self) -> u32
        ensures { result ≡ slice_index tops (place self) }
    {
        Packet::LARGEST.get(self)
    }
}
