// Opening packed bytes.
ghost use Rattle.std.specs.Prelude.{◌≡◌};
ghost use Rattle.blocks.specs.Reading.{row_count};
ghost use Rattle.opening.specs.Opened.{bytes_of, Opens, DecidesAsPacked, PacksToItself};

use crate::inspection::inspect;
use crate::packed_table::Table;
use crate::rows::Rows;
use crate::search::Nested;
use damage::OpenRefusal;
use decision::Kind;
use std::alloc::Global;
use std::marker::PhantomData;

impl<K: Kind> Table<K> {
    // The table of the bytes, or their first damage. Memory for a copy is asked for last.
    pub fn open(heap: Global, bytes: &[u8]) -> Result<Table<K>, OpenRefusal>
        ensures answer { Opens K.Kind.NUMBER K.Kind.COUNT bytes.now result }
        ensures decides { DecidesAsPacked K.Kind.NUMBER K.Kind.COUNT K.Kind.SILENT bytes.now result }
        ensures packs_back { PacksToItself K.Kind.NUMBER K.Kind.COUNT K.Kind.SILENT bytes.now result }
    {
        let rows = inspect::<K>(bytes)?;
        let bytes = Vec::from_slice(heap, bytes)?;
        Ok(Table {
            bytes,
            rows,
            kind: PhantomData,
        })
    }

    // Its rows, which are nested.
    pub(crate) fn nested(&self) -> Nested<'_>
        ensures { result.rows.bytes.now ≡ bytes_of self.now }
    {
        Nested {
            rows: Rows {
                bytes: &self.bytes,
                count: self.rows,
            },
        }
    }

    // The count of its rows.
    pub fn row_count(&self) -> usize
        ensures { result ≡ row_count (bytes_of self.now) }
    {
        self.rows
    }
}
