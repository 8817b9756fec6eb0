// The tokens of a line.
ghost use Rattle.std.specs.Prelude.{◌≡◌};
ghost use Rattle.text.specs.Tokens.{word_of, column_of, Stands};

// A word of a line, borrowed from the text, with the column of its first byte counted from 1. The star is a case of its own, so that
// what reads a range need not look for it in the bytes.
#[derive(Clone, Copy)]
pub(crate) enum Token<'a> {
    // The word `*`.
    Star { column: usize },
    // Any other word.
    Word { text: &'a [u8], column: usize },
}

impl<'a> Token<'a> {
    pub(crate) fn new(text: &'a [u8], column: usize) -> Token<'a>
        ensures { Stands result text.now column }
    {
        match text {
            b"*" => Token::Star { column },
            _ => Token::Word { text, column },
        }
    }

    pub(crate) fn text(self) -> &'a [u8]
        ensures { result.now ≡ word_of self.entry }
    {
        match self {
            Token::Star { .. } => b"*",
            Token::Word { text, .. } => text,
        }
    }

    pub(crate) fn column(self) -> usize
        ensures { result ≡ column_of self.entry }
    {
        match self {
            Token::Star { column } | Token::Word { column, .. } => column,
        }
    }
}
