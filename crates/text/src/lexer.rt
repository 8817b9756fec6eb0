// A line cut into tokens.
ghost use Rattle.std.specs.Prelude.{◌≡◌, ◌+◌, ◌^◌, ◌<◌, [], MatchOption};
ghost use Rattle.std.specs.Iterator.{item_count};
ghost use Rattle.text.specs.Pieces.{pieces, left, extent};
ghost use Rattle.text.specs.Tokens.{Taken};

use crate::lines::Line;
use crate::pieces::Pieces;
use crate::tokens::Token;

// The words that are left, and the column where they begin.
#[derive(Drop)]
pub(crate) struct Lexer<'a> {
    pub(crate) words: Pieces<'a>,
    pub(crate) column: usize,
    ghost fits: { column + extent (left words) < 2 ^ 64 },
}

impl<'a> Lexer<'a> {
    #[tactic(auto, using(crate::proofs::Cuts::extent_pieces))]
    pub(crate) fn new(line: Line<'a>) -> Lexer<'a>
        ensures { (left result.words ≡ pieces 32 line.entry.bytes.now) × (result.column ≡ 1) }
    {
        Lexer {
            words: Pieces::new(line.bytes, b' '),
            column: 1,
        }
    }
}

impl<'a> Iterator for Lexer<'a> {
    type Item = Token<'a>;

    ghost next_gives = { λ s r t. MatchOption r ((left s.words ≡ []) × (left t.words ≡ [])) (λ token. Taken token (left s.words) s.column (left t.words) t.column) };

    ghost remaining = { item_count (λ s. left s.words) };

    // The next word, up to the next space or the line's end.
    fn next(&mut self) -> Option<Token<'a>> {
        let column = self.column;
        let text = self.words.next()?;
        self.column = column + text.len() + 1;
        Some(Token::new(text, column))
    }
}
