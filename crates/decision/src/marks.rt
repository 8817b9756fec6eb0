// Kind 2: the sets of the marks log (1), meter (2), copy (4) and hold (8), each as the sum of its marks.
ghost use Rattle.decision.specs.Kinds.{known_below, known_or};
ghost use Rattle.decision.specs.Marks.{contained, common, either, mark_word};
ghost use Rattle.std.specs.Prelude.{refl};
ghost use Rattle.decision.specs.Tested.{foreign_known, lattice_tested, words_tested};
ghost use Rattle.std.proofs.Common.{lit<, lit≤};

use crate::kind::{Kind, are_below};

pub struct Marks;

impl Kind for Marks {
    const NUMBER: u8 = 2;

    ghost NUMBER = { 2 };

    const COUNT: u8 = 16;

    ghost COUNT = { 16 };

    const SILENT: u8 = 0;

    ghost SILENT = { 0 };

    ghost below = { known_below 16 contained };

    ghost meet = { known_or 16 0 common };

    ghost join = { known_or 16 0 either };

    ghost word = { mark_word };

    // Each kind shows the laws for its own decisions; what it shares with the other kinds are the lemmas.
    ghost bounds = { record { numbered = lit≤ tt; byte = lit≤ tt; several = lit≤ tt; few = lit≤ tt; of_kind = lit< tt } };

    ghost lattice = { lattice_tested _ _ _ _ refl refl refl refl refl refl refl refl refl refl refl };

    ghost foreign = { foreign_known _ _ _ _ _ };

    ghost words = { words_tested _ _ _ refl refl refl refl };

    fn below(a: u8, b: u8) -> bool {
        are_below(Self::COUNT, a, b) && a & b == a
    }

    fn meet(a: u8, b: u8) -> u8 {
        if are_below(Self::COUNT, a, b) {
            a & b
        } else {
            Self::SILENT
        }
    }

    fn join(a: u8, b: u8) -> u8 {
        if are_below(Self::COUNT, a, b) {
            a | b
        } else {
            Self::SILENT
        }
    }

    fn word(decision: u8) -> &'static str {
        match decision {
            1 => "log",
            2 => "meter",
            3 => "log+meter",
            4 => "copy",
            5 => "log+copy",
            6 => "meter+copy",
            7 => "log+meter+copy",
            8 => "hold",
            9 => "log+hold",
            10 => "meter+hold",
            11 => "log+meter+hold",
            12 => "copy+hold",
            13 => "log+copy+hold",
            14 => "meter+copy+hold",
            15 => "log+meter+copy+hold",
            _ => "none",
        }
    }
}
