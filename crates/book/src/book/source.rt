// A book as a source.
ghost use Rattle.std.specs.Prelude.{◌≡◌, find, option_map};
ghost use Rattle.std.specs.List.{list_all, zip};
ghost use Rattle.packet.specs.Packets.{values, place};
ghost use Rattle.packet.specs.Regions.{ranges, inside, holds};
ghost use Rattle.book.specs.Books.{rules_of};
ghost use Rattle.book.specs.Deciding.{meant};
ghost use Rattle.book.specs.Reach.{whole, Stops};
ghost use Rattle.book.specs.Reaches.{stops_edge};
ghost use Rattle.decision.specs.Tested.{known_of_kind};

use crate::book::Book;
use crate::rule::Rule;
use decision::Kind;
use packet::{Field, Packet, Range};
use policy::Source;

impl<K: Kind> Source<K> for Book<K> {
    ghost meaning = { λ book p. meant K.Kind.COUNT K.Kind.SILENT (rules_of book) p };

    ghost stops = { λ book f p r. Stops (rules_of book) f p r };

    ghost decided = { λ s p w. known_of_kind K.Kind.COUNT K.Kind.SILENT _ K.Kind.bounds.of_kind };

    ghost sound = { λ s f p r few w h. stops_edge K.Kind.COUNT K.Kind.SILENT (rules_of s) f p r few w h };

    fn decide(&self, packet: &Packet) -> u8 {
        first_decision(&self.rules, *packet).unwrap_or(K::SILENT)
    }

    fn edge(&self, field: Field, packet: &Packet) -> u32 {
        nearest_end(&self.rules, field, *packet)
    }
}

// The decision of the first rule that holds the packet.
fn first_decision(rules: &[Rule], packet: Packet) -> Option<u8>
    ensures { result ≡ option_map (λ rule. rule.decision) (find (λ rule. holds (ranges rule.region) (values packet)) rules.now) }
{
    rules
        .iter()
        .find(|rule| rule.region.contains(packet))
        .map(|rule| rule.decision)
}

// The nearest end, on the field, of the rules looked at, from the packet's value up. A loop, since it keeps the nearest so far and stops
// at the first rule that settles the rest.
fn nearest_end(rules: &[Rule], field: Field, packet: Packet) -> u32
    ensures { Stops rules.now (place field) (values packet) result }
{
    let values = packet.to_array();
    let largest = Packet::LARGEST.to_array();
    let place = field.index();
    let value = packet.get(field);
    let top = field.top();
    let mut end = top;
    for rule in rules {
        let ranges = rule.region.to_array();
        if all_hold(&ranges[..place], &values[..place]) {
            let range = ranges[place];
            end = end.min(range.run_end(value, top));
            if range.contains(value) && are_whole(&ranges[place + 1..], &largest[place + 1..]) {
                return end;
            }
        }
    }
    end
}

// Does each range hold the value at its place?
fn all_hold(ranges: &[Range<u32>], values: &[u32]) -> bool
    ensures { result ≡ list_all (λ pair. inside pair.0 pair.1) (zip ranges.now values.now) }
{
    ranges
        .iter()
        .zip(values)
        .all(|(range, value)| range.contains(*value))
}

// Does each range hold every value up to the largest at its place?
fn are_whole(ranges: &[Range<u32>], largest: &[u32]) -> bool
    ensures { result ≡ list_all (λ pair. whole pair.1 pair.0) (zip ranges.now largest.now) }
{
    ranges
        .iter()
        .zip(largest)
        .all(|(range, largest)| is_whole(*range, *largest))
}

// Does the range hold every value up to the largest? It may reach further; what is printed as whole may not.
fn is_whole(range: Range<u32>, largest: u32) -> bool
    ensures { result ≡ whole largest range }
{
    range.low == 0 && range.high >= largest
}
