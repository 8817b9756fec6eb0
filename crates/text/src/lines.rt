// A text that is short enough to be read, and its lines.
ghost use Rattle.std.specs.Prelude.{◌≡◌, ◌+◌, ◌<◌, ◌≤◌, [], length, Some, MatchOption, MatchResult};
ghost use Rattle.std.specs.Iterator.{item_count};
ghost use Rattle.text.specs.Pieces.{pieces, left, extent, TakenFrom};
ghost use Rattle.text.specs.declared.faults.ReadFault.TheVariants.{Long};

use crate::faults::ReadFault;
use crate::pieces::Pieces;

// How many bytes a text has at most.
pub const LIMIT: usize = 16_384;

#[derive(Clone, Copy)]
pub(crate) struct Text<'a> {
    bytes: &'a [u8],
    ghost short: { length bytes.now ≤ 16384 },
}

impl<'a> Text<'a> {
    pub(crate) fn new(bytes: &'a [u8]) -> Result<Text<'a>, ReadFault>
        ensures { MatchResult result (λ text. text.bytes ≡ bytes.entry) (λ fault. (16384 < length bytes.now) × (fault ≡ Long)) }
    {
        if bytes.len() > LIMIT {
            return Err(ReadFault::Long);
        }
        Ok(Text { bytes })
    }

    #[tactic(auto, using(crate::proofs::Cuts::extent_pieces))]
    pub(crate) fn lines(self) -> Lines<'a>
        ensures lines { left result.pieces ≡ pieces 10 self.entry.bytes.now }
        ensures place { result.pieces.rest ≡ Some self.entry.bytes }
        ensures number { result.number ≡ 0 }
    {
        Lines {
            pieces: Pieces::new(self.bytes, b'\n'),
            number: 0,
        }
    }
}

// A line, counted from 1, without its line feed.
#[derive(Clone, Copy)]
pub(crate) struct Line<'a> {
    pub(crate) number: usize,
    pub(crate) bytes: &'a [u8],
    ghost short: { length bytes.now ≤ 16384 },
}

// The lines that are still to be taken, and how many were.
#[derive(Drop)]
pub(crate) struct Lines<'a> {
    pieces: Pieces<'a>,
    number: usize,
    ghost short: { number + extent (left pieces) ≤ 16385 },
}

impl<'a> Iterator for Lines<'a> {
    type Item = Line<'a>;

    ghost next_gives = { λ s r t. MatchOption r ((left s.pieces ≡ []) × (left t.pieces ≡ [])) (λ line. TakenFrom s.pieces line.bytes t.pieces × (line.number ≡ s.number + 1) × (t.number ≡ s.number + 1)) };

    ghost remaining = { item_count (λ s. left s.pieces) };

    fn next(&mut self) -> Option<Line<'a>> {
        let bytes = self.pieces.next()?;
        self.number += 1;
        Some(Line {
            number: self.number,
            bytes,
        })
    }
}
