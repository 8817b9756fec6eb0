// The interface of a decision kind.
ghost use Rattle.std.specs.Prelude.{◌≡◌, ℕ, Bool, List};
ghost use Rattle.decision.specs.Kinds.{Bounds, Lattice, Foreign, Words, known, both, read_word};

// A kind's decisions are the numbers below its count. Each constant, and each function that a kind gives itself, has a ghost member of
// its name beside it, by which contracts name its value. Decisions are plain numbers and not a type of the kind's own, because books and
// packed bytes are given numbers of any kind, and refuse those that are no decision.
pub trait Kind {
    // The kind's number.
    const NUMBER: u8;

    ghost NUMBER: { ℕ };

    // How many decisions it has.
    const COUNT: u8;

    ghost COUNT: { ℕ };

    // Its silent decision.
    const SILENT: u8;

    ghost SILENT: { ℕ };

    // is a below b?
    ghost below: { ℕ → ℕ → Bool };

    // the meet of two
    ghost meet: { ℕ → ℕ → ℕ };

    // the join of two
    ghost join: { ℕ → ℕ → ℕ };

    // the word of a decision
    ghost word: { ℕ → List ℕ };

    fn below(a: u8, b: u8) -> bool
        ensures { result ≡ below a b };

    fn meet(a: u8, b: u8) -> u8
        ensures { result ≡ meet a b };

    fn join(a: u8, b: u8) -> u8
        ensures { result ≡ join a b };

    fn word(decision: u8) -> &'static str
        ensures { result.now ≡ word decision };

    // The decision itself, or the silent one for a number that is no decision of the kind.
    fn or_silent(decision: u8) -> u8
        ensures { result ≡ known COUNT SILENT decision }
    {
        if decision < Self::COUNT {
            decision
        } else {
            Self::SILENT
        }
    }

    // The decision other than the silent one that is written so. A loop, since what `rev().find(..)` finds in a range is not proved.
    #[tactic(auto, using(crate::specs::Words::read_here, crate::specs::Words::read_other, crate::specs::Words::read_silent, crate::specs::Words::read_end))]
    fn read(text: &[u8]) -> Option<u8>
        ensures { result ≡ read_word COUNT SILENT word text.now }
    {
        for decision in (0..Self::COUNT).rev() {
            if decision != Self::SILENT && Self::word(decision).as_bytes() == text {
                return Some(decision);
            }
        }
        None
    }

    ghost bounds: { Bounds NUMBER COUNT SILENT };

    ghost lattice: { Lattice COUNT below meet join };

    ghost foreign: { Foreign COUNT SILENT below meet join };

    ghost words: { Words COUNT SILENT word };
}

// Are both numbers below the count, that is, decisions?
pub(crate) fn are_below(count: u8, a: u8, b: u8) -> bool
    ensures { result ≡ both count a b }
{
    a < count && b < count
}
