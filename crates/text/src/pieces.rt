// A text cut at a byte.
ghost use Rattle.std.specs.Prelude.{◌≡◌, [], Some, MatchOption};
ghost use Rattle.std.specs.Iterator.{item_count};
ghost use Rattle.text.specs.Pieces.{pieces, left, TakenFrom};

// What is left of a text to be cut at a separator; none once the last piece is taken. Unlike the library's `split`, it has no
// closure in its type, and says of a piece where in the text it lies.
#[derive(Drop)]
pub(crate) struct Pieces<'a> {
    separator: u8,
    rest: Option<&'a [u8]>,
}

impl<'a> Pieces<'a> {
    pub(crate) fn new(text: &'a [u8], separator: u8) -> Pieces<'a>
        ensures pieces { left result ≡ pieces separator text.now }
        ensures place { result.rest ≡ Some text.entry }
    {
        Pieces {
            separator,
            rest: Some(text),
        }
    }
}

impl<'a> Iterator for Pieces<'a> {
    type Item = &'a [u8];

    ghost next_gives = { λ s r t. MatchOption r ((left s ≡ []) × (left t ≡ [])) (λ piece. TakenFrom s piece t) };

    ghost remaining = { item_count left };

    // The text up to its first separator, or the whole of it.
    #[tactic(auto, using(crate::proofs::Cuts::piece_at, crate::proofs::Cuts::piece_whole))]
    fn next(&mut self) -> Option<&'a [u8]> {
        let text = self.rest?;
        let separator = self.separator;
        match text.iter().position(|byte| *byte == separator) {
            Some(at) => {
                self.rest = Some(&text[at + 1..]);
                Some(&text[..at])
            }
            None => {
                self.rest = None;
                Some(text)
            }
        }
    }
}
