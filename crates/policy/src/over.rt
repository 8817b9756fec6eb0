// Putting one source over another.
ghost use Rattle.policy.specs.Layers.{over};
ghost use Rattle.policy.specs.Pointwise.{over_of_kind};

use crate::combined::Combination;
use decision::Kind;

// The first decision, and where it is silent the second.
#[derive(Clone, Copy)]
pub struct Over;

impl<K: Kind> Combination<K> for Over {
    ghost made = { over K.Kind.SILENT };

    ghost of_kind = { over_of_kind K.Kind.COUNT K.Kind.SILENT };

    fn is_settled(first: u8) -> bool {
        first != K::SILENT
    }

    fn combine(first: u8, second: u8) -> u8 {
        if first == K::SILENT { second } else { first }
    }
}
