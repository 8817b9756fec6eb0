// A layer that lets one source decide inside a region, and is silent outside.
ghost use Rattle.std.specs.Prelude.{◌≡◌, ℕ, ◌<◌, Bool, true, false, if◌then◌else◌, MatchResult, refl};
ghost use Rattle.std.proofs.Common.{sym, subst};
ghost use Rattle.packet.specs.Regions.{ranges, any_reversed, holds};
ghost use Rattle.policy.specs.Layers.{part, Lower, own_end};
ghost use Rattle.policy.specs.Edges.{Edge};
ghost use Rattle.policy.specs.Pointwise.{edge_of_both, edge_of_region};

use crate::source::Source;
use decision::Kind;
use packet::{Field, Packet, Region};

// The source inside the region.
#[derive(Drop)]
pub struct Part<S> {
    region: Region,
    source: S,
    ghost forward: { any_reversed (ranges region) ≡ false },
}

// Refusal 3: a range of the region is reversed. The source comes back as it was given.
#[derive(Drop)]
pub struct ReversedRegion<S> {
    pub source: S,
}

impl<S> ReversedRegion<S> {
    // The number by which the refusal is reported. There is only this one.
    pub fn number(&self) -> u8
        ensures { result ≡ 3 }
    {
        3
    }
}

impl<S> Part<S> {
    pub fn new(region: Region, source: S) -> Result<Part<S>, ReversedRegion<S>>
        ensures { MatchResult result (λ made. (made.region ≡ region) × (made.source ≡ source)) (λ back. (any_reversed (ranges region) ≡ true) × (back.source ≡ source)) }
    {
        if region.is_reversed() {
            return Err(ReversedRegion { source });
        }
        Ok(Part { region, source })
    }
}

impl<K: Kind, S: Source<K>> Source<K> for Part<S> {
    ghost meaning = { λ s p. part K.Kind.SILENT (ranges s.region) (S.Source.meaning s.source) p };

    ghost stops = { λ s f p r. Lower (S.Source.stops s.source f p) (λ own. own ≡ own_end (ranges s.region) f p) r };

    ghost decided = { λ s p w.
        elim (holds (ranges s.region) p) as (λ inside. (if inside then S.Source.meaning s.source p else K.Kind.SILENT) < K.Kind.COUNT) [
          | true ↦ S.Source.decided s.source p w
          | false ↦ K.Kind.bounds.of_kind
        ] };

    ghost sound = { λ s f p r few w l.
        edge_of_both (λ (d : ℕ) (inside : Bool). (if inside then d else K.Kind.SILENT)) _ (holds (ranges s.region)) p f r _ _
        (λ a. S.Source.sound _ _ _ _ few w)
        (λ own e. subst (Edge (holds (ranges s.region)) p f) (sym e) (edge_of_region (ranges s.region) p f refl few w)) l };

    fn decide(&self, packet: &Packet) -> u8 {
        if self.region.contains(*packet) {
            self.source.decide(packet)
        } else {
            K::SILENT
        }
    }

    fn edge(&self, field: Field, packet: &Packet) -> u32 {
        let own = self
            .region
            .range(field)
            .run_end(packet.get(field), field.top());
        own.min(self.source.edge(field, packet))
    }
}
