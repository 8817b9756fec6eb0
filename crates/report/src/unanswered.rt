// Why a question has no answer.
ghost use Rattle.std.specs.Prelude.{◌≡◌, Some};
ghost use Rattle.report.specs.Outputs.{refusal, unanswered_text};
ghost use Rattle.report.specs.declared.unanswered.Unanswered.TheVariants.{Refused, Memory};
ghost use Rattle.text.specs.Faults.{report_of};

use std::alloc::AllocError;
use std::error::Error;
use std::fmt;
use table::PackRefusal;
use text::{ReadFault, Report};

#[derive(Clone, Copy, PartialEq, Eq, Debug)]
pub enum Unanswered {
    // What was given is refused, and the program ends with status 1.
    Refused(Report),
    // There is no memory.
    Memory,
}

// The refusal of what is too large. It has no place.
pub const TOO_LARGE: Report = Report {
    number: 5,
    layer: 0,
    line: 0,
    column: 0,
};

// Written out, since a derived `From` does not say what it gives.
impl From<ReadFault> for Unanswered {
    ghost from_gives = { λ fault r. r ≡ Refused (report_of fault) };

    fn from(fault: ReadFault) -> Self {
        Self::Refused(fault.report())
    }
}

impl From<PackRefusal> for Unanswered {
    ghost from_gives = { λ given r. r ≡ refusal given };

    fn from(given: PackRefusal) -> Self {
        match given {
            PackRefusal::TooLarge => Self::Refused(TOO_LARGE),
            PackRefusal::Memory => Self::Memory,
        }
    }
}

impl From<AllocError> for Unanswered {
    ghost from_gives = { λ _ r. r ≡ Memory };

    fn from(_given: AllocError) -> Self {
        Self::Memory
    }
}

impl fmt::Display for Unanswered {
    ghost output = { λ r. Some (unanswered_text r) };

    fn fmt<W: fmt::Write>(&self, f: &mut fmt::Formatter<W>) -> fmt::Result {
        match self {
            Unanswered::Refused(report) => write!(f, "{report}"),
            Unanswered::Memory => write!(f, "memory allocation failed"),
        }
    }
}

impl Error for Unanswered {}
