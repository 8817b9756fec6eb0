// A layer that makes one decision of two sources' decisions.
ghost use Rattle.std.specs.Prelude.{◌≡◌, ℕ, ◌<◌, Bool, true};
ghost use Rattle.policy.specs.Layers.{Lower};
ghost use Rattle.policy.specs.Pointwise.{edge_of_both};

use crate::source::Source;
use decision::Kind;
use packet::{Field, Packet};

// A way to make one decision of two. A type and not a closure, since it brings a law.
pub trait Combination<K: Kind> {
    // the decision made of two
    ghost made: { ℕ → ℕ → ℕ };

    // Is it the first decision, whatever the second one is? Then the second source need not be asked.
    fn is_settled(first: u8) -> bool
        ensures { result ≡ true → (second : ℕ) → made first second ≡ first }
    {
        false
    }

    fn combine(first: u8, second: u8) -> u8
        ensures { result ≡ made first second };

    // of two decisions of the kind it makes one of the kind
    ghost of_kind: { (a b : ℕ) → a < K.Kind.COUNT → b < K.Kind.COUNT → made a b < K.Kind.COUNT };
}

// Two sources, and the way in which their decisions are combined.
#[derive(Drop)]
pub struct Combined<A, B, C> {
    pub first: A,
    pub second: B,
    pub by: C,
}

impl<K: Kind, A: Source<K>, B: Source<K>, C: Combination<K>> Source<K> for Combined<A, B, C> {
    ghost meaning = { λ s p. C.Combination.made (A.Source.meaning s.first p) (B.Source.meaning s.second p) };

    ghost stops = { λ s f p r. Lower (A.Source.stops s.first f p) (B.Source.stops s.second f p) r };

    ghost decided = { λ s p w. C.Combination.of_kind _ _ (A.Source.decided s.first p w) (B.Source.decided s.second p w) };

    ghost sound = { λ s f p r few w l. edge_of_both C.Combination.made _ _ p f r _ _ (λ a. A.Source.sound _ _ _ _ few w) (λ b. B.Source.sound _ _ _ _ few w) l };

    fn decide(&self, packet: &Packet) -> u8 {
        let first = self.first.decide(packet);
        if C::is_settled(first) {
            return first;
        }
        C::combine(first, self.second.decide(packet))
    }

    fn edge(&self, field: Field, packet: &Packet) -> u32 {
        let edge = self.first.edge(field, packet);
        edge.min(self.second.edge(field, packet))
    }
}
