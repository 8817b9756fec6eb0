// The region that the words behind the decision write.
ghost use Rattle.std.specs.Prelude.{◌≡◌};
ghost use Rattle.text.specs.Pieces.{left};
ghost use Rattle.text.specs.Fields.{region_from};

use crate::faults::LineFault;
use crate::lexer::Lexer;
use crate::ranges::range;
use packet::{Field, Region};

// region = five ranges, in the order of the fields
pub(crate) fn region(words: &mut Lexer) -> Result<Region, LineFault>
    ensures { result ≡ region_from words.old.column (left words.old.words) }
{
    let mut region = Region::EVERYTHING;
    for field in Field::ALL {
        let column = words.column;
        let Some(token) = words.next() else {
            return Err(LineFault::Words { column });
        };
        region = region.with(field, range(field, token)?);
    }
    Ok(region)
}
