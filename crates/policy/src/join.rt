// Deciding by the join of two sources.
use crate::combined::Combination;
use decision::Kind;

// The join of both.
#[derive(Clone, Copy)]
pub struct Join;

impl<K: Kind> Combination<K> for Join {
    ghost made = { K.Kind.join };

    ghost of_kind = { K.Kind.lattice.join_of_kind };

    fn combine(first: u8, second: u8) -> u8 {
        K::join(first, second)
    }
}
