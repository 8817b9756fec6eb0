// Why bytes are not opened.
ghost use Rattle.std.specs.Prelude.{◌≡◌, Some};
ghost use Rattle.damage.specs.declared.refusal.OpenRefusal.TheVariants.{Damaged, Memory};
ghost use Rattle.damage.specs.Refusals.{refusal_number, refusal_place, refusal_text};

use crate::damage::Damage;
use std::alloc::AllocError;
use std::error::Error;
use std::fmt;

#[derive(Clone, Copy, PartialEq, Eq, Debug)]
pub enum OpenRefusal {
    // The bytes are damaged: 11 to 16, with the place.
    Damaged(Damage),
    // The bytes are good, and there is no memory for a copy of them.
    Memory,
}

impl OpenRefusal {
    // The refusal's number; want of memory has none, so that no discriminants can say it.
    pub fn number(self) -> Option<u8>
        ensures { result ≡ refusal_number self }
    {
        match self {
            OpenRefusal::Damaged(damage) => Some(damage.number()),
            OpenRefusal::Memory => None,
        }
    }

    // The block or row that the refusal names; want of memory names none.
    pub fn place(self) -> Option<usize>
        ensures { result ≡ refusal_place self }
    {
        match self {
            OpenRefusal::Damaged(damage) => Some(damage.place()),
            OpenRefusal::Memory => None,
        }
    }
}

// Written out, since a derived `From` does not say what it gives.
impl From<Damage> for OpenRefusal {
    ghost from_gives = { λ damage r. r ≡ Damaged damage };

    fn from(value: Damage) -> Self {
        Self::Damaged(value)
    }
}

impl From<AllocError> for OpenRefusal {
    ghost from_gives = { λ _ r. r ≡ Memory };

    fn from(_value: AllocError) -> Self {
        Self::Memory
    }
}

impl fmt::Display for OpenRefusal {
    ghost output = { λ refusal. Some (refusal_text refusal) };

    fn fmt<W: fmt::Write>(&self, f: &mut fmt::Formatter<W>) -> fmt::Result {
        match self {
            OpenRefusal::Damaged(damage) => write!(f, "{damage}"),
            OpenRefusal::Memory => write!(f, "memory allocation failed"),
        }
    }
}

impl Error for OpenRefusal {}
