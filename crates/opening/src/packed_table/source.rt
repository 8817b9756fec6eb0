// A table as a source.
ghost use Rattle.std.specs.Prelude.{◌≡◌};
ghost use Rattle.opening.specs.Opened.{bytes_of, meant, range_end};
ghost use Rattle.opening.specs.Tables.{range_end_edge};
ghost use Rattle.decision.specs.Tested.{known_of_kind};

use crate::packed_table::Table;
use decision::Kind;
use packet::{Field, Packet};
use policy::Source;

impl<K: Kind> Source<K> for Table<K> {
    ghost meaning = { λ table p. meant K.Kind.COUNT K.Kind.SILENT (bytes_of table) p };

    ghost stops = { λ table f p r. r ≡ range_end (bytes_of table) f p };

    ghost decided = { λ s p w. known_of_kind K.Kind.COUNT K.Kind.SILENT _ K.Kind.bounds.of_kind };

    ghost sound = { λ s f p r few w h. range_end_edge K.Kind.COUNT K.Kind.SILENT (bytes_of s) s.nested f p r few w h };

    fn decide(&self, packet: &Packet) -> u8 {
        K::or_silent(self.nested().decision(*packet))
    }

    fn edge(&self, field: Field, packet: &Packet) -> u32 {
        self.nested().end(field, *packet)
    }
}
