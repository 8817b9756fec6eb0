// Deciding by the meet of two sources.
use crate::combined::Combination;
use decision::Kind;

// The meet of both.
#[derive(Clone, Copy)]
pub struct Meet;

impl<K: Kind> Combination<K> for Meet {
    ghost made = { K.Kind.meet };

    ghost of_kind = { K.Kind.lattice.meet_of_kind };

    fn combine(first: u8, second: u8) -> u8 {
        K::meet(first, second)
    }
}
