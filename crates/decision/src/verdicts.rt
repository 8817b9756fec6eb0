// Kind 1: deny, none, allow, in this order.
ghost use Rattle.std.specs.Prelude.{◌≡◌, min, max, nat_le, refl};
ghost use Rattle.decision.specs.Kinds.{known_below, known_or};
ghost use Rattle.decision.specs.Verdicts.{verdict_word};
ghost use Rattle.decision.specs.Tested.{foreign_known, lattice_tested, words_tested};
ghost use Rattle.std.proofs.Common.{lit<, lit≤};

use crate::kind::{Kind, are_below};

pub struct Verdicts;

impl Kind for Verdicts {
    const NUMBER: u8 = 1;

    ghost NUMBER = { 1 };

    const COUNT: u8 = 3;

    ghost COUNT = { 3 };

    const SILENT: u8 = 1;

    ghost SILENT = { 1 };

    ghost below = { known_below 3 nat_le };

    ghost meet = { known_or 3 1 min };

    ghost join = { known_or 3 1 max };

    ghost word = { verdict_word };

    // Each kind shows the laws for its own decisions; what it shares with the other kinds are the lemmas.
    ghost bounds = { record { numbered = lit≤ tt; byte = lit≤ tt; several = lit≤ tt; few = lit≤ tt; of_kind = lit< tt } };

    ghost lattice = { lattice_tested _ _ _ _ refl refl refl refl refl refl refl refl refl refl refl };

    ghost foreign = { foreign_known _ _ _ _ _ };

    ghost words = { words_tested _ _ _ refl refl refl refl };

    fn below(a: u8, b: u8) -> bool {
        are_below(Self::COUNT, a, b) && a <= b
    }

    fn meet(a: u8, b: u8) -> u8 {
        if are_below(Self::COUNT, a, b) {
            a.min(b)
        } else {
            Self::SILENT
        }
    }

    fn join(a: u8, b: u8) -> u8 {
        if are_below(Self::COUNT, a, b) {
            a.max(b)
        } else {
            Self::SILENT
        }
    }

    fn word(decision: u8) -> &'static str {
        match decision {
            0 => "deny",
            2 => "allow",
            _ => "none",
        }
    }
}
