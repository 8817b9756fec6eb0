// Why a source is not packed.
ghost use Rattle.std.specs.Prelude.{◌≡◌};
ghost use Rattle.table.specs.declared.refusal.PackRefusal.TheVariants.{Memory};
ghost use Rattle.table.specs.Refusals.{refusal_number};

use std::alloc::{AllocError, AllocFailed};

#[derive(Clone, Copy, PartialEq, Eq, Debug)]
pub enum PackRefusal {
    // The table has more than 1,152 rows, or its blocks outnumber the whole blocks in the given bytes.
    TooLarge,
    // There is no memory for the rows.
    Memory,
}

impl PackRefusal {
    // The refusal's number; want of memory has none, so that no discriminants can say it.
    pub fn number(self) -> Option<u8>
        ensures { result ≡ refusal_number self }
    {
        match self {
            PackRefusal::TooLarge => Some(5),
            PackRefusal::Memory => None,
        }
    }
}

// Written out, since a derived `From` does not say what it gives.
impl<T: Drop> From<AllocFailed<T>> for PackRefusal {
    ghost from_gives = { λ _ r. r ≡ Memory };

    fn from(failed: AllocFailed<T>) -> Self {
        AllocError::from(failed).into()
    }
}

impl From<AllocError> for PackRefusal {
    ghost from_gives = { λ _ r. r ≡ Memory };

    fn from(_value: AllocError) -> Self {
        Self::Memory
    }
}
