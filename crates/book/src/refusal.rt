// Why a call on a book is refused.
ghost use Rattle.std.specs.Prelude.{◌≡◌};
ghost use Rattle.book.specs.Refusals.{refusal_number};

// The discriminant of a refusal is the number by which it is reported.
#[derive(Clone, Copy, PartialEq, Eq, Debug)]
pub enum Refusal {
    // The book has 64 rules.
    Full = 1,
    // No rule has the position; for an added rule, the position is above the count of rules.
    NoSuchPosition = 2,
    // A range of the rule's region is reversed.
    ReversedRange = 3,
    // The decision is silent or not of the kind.
    NotADecision = 4,
}

impl Refusal {
    // The number by which a refusal is reported.
    pub fn number(self) -> u8
        ensures { result ≡ refusal_number self }
    {
        self as u8
    }
}
