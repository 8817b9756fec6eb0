// What is found of two rules.
ghost use Rattle.std.specs.Prelude.{◌≡◌};
ghost use Rattle.findings.specs.Hidings.{hiding_number};

// How two rules of a book hide each other. The discriminant is the number by which a finding is reported.
#[derive(Clone, Copy, PartialEq, Eq, Debug)]
pub enum Hiding {
    // The first covers the second, and their decisions are equal.
    Redundant = 1,
    // The first covers the second.
    Shadowed = 2,
    // The second covers the first, and their decisions differ.
    Generalised = 3,
    // They share a packet, and their decisions differ.
    Correlated = 4,
}

impl Hiding {
    // The number by which a finding is reported.
    pub fn number(self) -> u8
        ensures { result ≡ hiding_number self }
    {
        self as u8
    }
}

// Two rules of a book by their positions, the first before the second, and how they hide each other.
#[derive(Clone, Copy, PartialEq, Eq, Debug)]
pub struct Finding {
    pub first: usize,
    pub second: usize,
    pub hiding: Hiding,
}

// Refusal 5: there are more findings than entries.
#[derive(Clone, Copy, PartialEq, Eq, Debug)]
pub struct TooShort;

impl TooShort {
    // The number by which the refusal is reported. There is only this one.
    pub fn number(self) -> u8
        ensures { result ≡ 5 }
    {
        5
    }
}
