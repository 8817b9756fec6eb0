// The letters of a line.
ghost use Rattle.std.specs.Prelude.{◌≡◌};
ghost use Rattle.text.specs.Letters.{is_letter, letters_of};

use crate::faults::LetterFault;

// letter = a byte from 32 to 126
fn is_letter(byte: u8) -> bool
    ensures { result ≡ is_letter byte }
{
    matches!(byte, b' '..=b'~')
}

// The first byte that is no letter is a fault.
#[tactic(auto, using(crate::proofs::Lettered::letter_all))]
pub(crate) fn letters(line: &[u8]) -> Result<(), LetterFault>
    ensures { result ≡ letters_of line.now }
{
    match line.iter().position(|byte| !is_letter(*byte)) {
        None => Ok(()),
        Some(index) => Err(LetterFault {
            byte: line[index],
            column: index + 1,
        }),
    }
}
