// What is wrong with packed bytes.
ghost use Rattle.std.specs.Prelude.{◌≡◌, Some};
ghost use Rattle.damage.specs.Refusals.{damage_number, damage_place, damage_text};

use std::error::Error;
use std::fmt;

// The first damage in the order of the cases: length; then, block by block, check, frame and foreign row; then nesting; then
// neighbours.
#[derive(Clone, Copy, PartialEq, Eq, Debug)]
pub enum Damage {
    // 11: the length is 0, no multiple of 512, or above 32,768.
    Length,
    // 12: the block's check is wrong.
    Check(usize),
    // 13: the block's count or number is wrong, or one of its unused bytes is not 0.
    Frame(usize),
    // 14: the row has another kind's number, or a decision that is none of the kind's.
    Foreign(usize),
    // 15: the rows up to this one begin no nested list; at the count of rows, the list ends short.
    NotNested(usize),
    // 16: the row starts a range that is alike its left neighbour.
    NotReduced(usize),
}

impl Damage {
    // The number by which the damage is reported. Variants with a place can have no discriminants.
    pub fn number(self) -> u8
        ensures { result ≡ damage_number self }
    {
        match self {
            Damage::Length => 11,
            Damage::Check(_) => 12,
            Damage::Frame(_) => 13,
            Damage::Foreign(_) => 14,
            Damage::NotNested(_) => 15,
            Damage::NotReduced(_) => 16,
        }
    }

    // Where the damage is: the block for 12 and 13, the row for 14, 15 and 16, counted from 0. A length has no place and tells 0.
    pub fn place(self) -> usize
        ensures { result ≡ damage_place self }
    {
        match self {
            Damage::Length => 0,
            Damage::Check(block) | Damage::Frame(block) => block,
            Damage::Foreign(row) | Damage::NotNested(row) | Damage::NotReduced(row) => row,
        }
    }
}

impl fmt::Display for Damage {
    ghost output = { λ damage. Some (damage_text damage) };

    fn fmt<W: fmt::Write>(&self, f: &mut fmt::Formatter<W>) -> fmt::Result {
        let number = self.number();
        let place = self.place();
        write!(f, "refused {number} place {place}")
    }
}

impl Error for Damage {}
