// Whether regions cover each other or share a packet.
ghost use Rattle.std.specs.Prelude.{◌≡◌, min, max, ◌&&◌, nat_le, Decides};
ghost use Rattle.std.specs.List.{list_all, zip};
ghost use Rattle.packet.specs.Regions.{ranges};
ghost use Rattle.findings.specs.Overlaps.{covers_ranges, shares_ranges, Covers, Shares};

use packet::{Range, Region};

// Does the first region hold every packet that the second holds?
pub fn covers(first: Region, second: Region) -> bool
    ensures test { result ≡ covers_ranges (ranges first) (ranges second) }
    ensures packets { Decides result (Covers (ranges first) (ranges second)) }
{
    let wide = first.to_array();
    let narrow = second.to_array();
    second.is_reversed() || reach_over(&wide, &narrow)
}

// Is there a packet that both regions hold?
pub fn shares(first: Region, second: Region) -> bool
    ensures test { result ≡ shares_ranges (ranges first) (ranges second) }
    ensures packets { Decides result (Shares (ranges first) (ranges second)) }
{
    meet(&first.to_array(), &second.to_array())
}

// Does each wide range reach over the narrow one at its place, at both ends?
fn reach_over(wide: &[Range<u32>], narrow: &[Range<u32>]) -> bool
    ensures { result ≡ list_all (λ pair. nat_le pair.0.low pair.1.low && nat_le pair.1.high pair.0.high) (zip wide.now narrow.now) }
{
    wide.iter().zip(narrow).all(|(wide, narrow)| wide.low <= narrow.low && narrow.high <= wide.high)
}

// Does each range share a value with the other one at its place?
fn meet(first: &[Range<u32>], second: &[Range<u32>]) -> bool
    ensures { result ≡ list_all (λ pair. nat_le (max pair.0.low pair.1.low) (min pair.0.high pair.1.high)) (zip first.now second.now) }
{
    first.iter().zip(second).all(|(one, other)| one.low.max(other.low) <= one.high.min(other.high))
}
