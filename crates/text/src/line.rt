// A line: a rule, or nothing.
ghost use Rattle.std.specs.Prelude.{◌≡◌};
ghost use Rattle.text.specs.Reads.{reads};
ghost use Rattle.text.specs.Pieces.{pieces};
ghost use Rattle.text.specs.Lines.{skipped, rule_of, line_of};
ghost use Rattle.text.specs.Steps.{carried};
ghost use Rattle.text.specs.declared.faults.ReadFault.TheVariants as fault;

use crate::faults::{LineFault, ReadFault};
use crate::letters::letters;
use crate::lexer::Lexer;
use crate::lines::Line;
use crate::regions::region;
use crate::words::six_words;
use book::Rule;
use decision::Kind;

// Empty lines and lines that begin with `#` are skipped.
fn is_skipped(line: &[u8]) -> bool
    ensures { result ≡ skipped line.now }
{
    matches!(line, [] | [b'#', ..])
}

impl<'a> Line<'a> {
    // rule = decision region
    fn rule<K: Kind>(self) -> Result<Rule, LineFault>
        ensures { result ≡ rule_of (reads K.Kind) (pieces 32 self.entry.bytes.now) }
    {
        let mut words = Lexer::new(self);
        let Some(token) = words.next() else {
            return Err(LineFault::Words { column: 1 });
        };
        let Some(decision) = K::read(token.text()) else {
            return Err(LineFault::Decision);
        };
        let region = region(&mut words)?;
        Ok(Rule { region, decision })
    }

    // line = nothing | "#" letters | rule
    fn said<K: Kind>(self) -> Result<Option<Rule>, LineFault>
        ensures { result ≡ line_of (reads K.Kind) self.entry.bytes.now }
    {
        letters(self.bytes)?;
        if is_skipped(self.bytes) {
            return Ok(None);
        }
        six_words(self)?;
        Ok(Some(self.rule::<K>()?))
    }

    // What the line says. Its fault is taken up with its number.
    pub(crate) fn read<K: Kind>(self) -> Result<Option<Rule>, ReadFault>
        ensures { result ≡ carried (fault.Line self.entry.number) (line_of (reads K.Kind) self.entry.bytes.now) }
    {
        self.said::<K>().map_err(|fault| ReadFault::Line {
            line: self.number,
            fault,
        })
    }
}
