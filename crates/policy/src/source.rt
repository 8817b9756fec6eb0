// The interface of a source: what it means, how it decides a packet, and how far a decision reaches.
ghost use Rattle.std.specs.Prelude.{◌≡◌, ℕ, ◌<◌, List, length};
ghost use Rattle.packet.specs.Packets.{values, tops, place, Within};
ghost use Rattle.policy.specs.Edges.{Edge};

use decision::Kind;
use packet::{Field, Packet};

// A source decides every packet, by a decision of the kind K.
pub trait Source<K: Kind> {
    // what is decided of a packet's values
    ghost meaning: { Self → List ℕ → ℕ };

    // what `edge` may answer for a field, a packet's values, and the answer
    ghost stops: { Self → ℕ → List ℕ → ℕ → Type 0 };

    // The decision of a packet.
    fn decide(&self, packet: &Packet) -> u8
        ensures { result ≡ meaning self.now (values packet.now) };

    // A value of the field, from the packet's own up, to which all values are decided alike under the packet's earlier values.
    fn edge(&self, field: Field, packet: &Packet) -> u32
        ensures { stops self.now (place field) (values packet.now) result };

    // every packet gets a decision of the kind
    ghost decided: { (s : Self) (p : List ℕ) → Within tops p → meaning s p < K.Kind.COUNT };

    // whatever `edge` may answer is an edge of the meaning
    ghost sound: { (s : Self) (f : ℕ) (p : List ℕ) (r : ℕ) → f < length tops → Within tops p → stops s f p r → Edge (meaning s) p f r };
}

// A borrowed source is a source, so that layers can hold what others own.
impl<'a, K: Kind, S: Source<K>> Source<K> for &'a S {
    ghost meaning = { λ s p. S.Source.meaning s.now p };

    ghost stops = { λ s f p r. S.Source.stops s.now f p r };

    ghost decided = { λ s p w. S.Source.decided s.now p w };

    ghost sound = { λ s f p r few w h. S.Source.sound s.now f p r few w h };

    fn decide(&self, packet: &Packet) -> u8 {
        S::decide(*self, packet)
    }

    fn edge(&self, field: Field, packet: &Packet) -> u32 {
        S::edge(*self, field, packet)
    }
}
