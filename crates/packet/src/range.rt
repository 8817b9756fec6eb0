// Ranges of values, both ends inside.
ghost use Rattle.std.specs.Prelude.{◌≡◌};
ghost use Rattle.packet.specs.Regions.{inside, reversed, run_end};

// A range whose low end is above its high end is reversed: it holds nothing, and a book and a part refuse a region that has one.
#[derive(Clone, Copy, PartialEq, Eq, Debug)]
pub struct Range<T> {
    pub low: T,
    pub high: T,
}

impl<T: Into<u32>> Range<T> {
    // The same range, over wide numbers.
    pub(crate) fn widened(self) -> Range<u32>
        ensures { (T.converts self.low result.low) × (T.converts self.high result.high) }
    {
        Range {
            low: self.low.into(),
            high: self.high.into(),
        }
    }
}

impl Range<u32> {
    // Does the value lie in the range?
    pub fn contains(self, value: u32) -> bool
        ensures { result ≡ inside self value }
    {
        self.low <= value && value <= self.high
    }

    // The last value, from `value` up to `top`, before the range begins or ends: all up to it lie inside, or none does.
    pub fn run_end(self, value: u32, top: u32) -> u32
        ensures { result ≡ run_end top self value }
    {
        if value < self.low {
            top.min(self.low - 1)
        } else if value <= self.high {
            top.min(self.high)
        } else {
            top
        }
    }

    // Is the low end above the high end?
    pub fn is_reversed(self) -> bool
        ensures { result ≡ reversed self }
    {
        self.low > self.high
    }
}
