// Numbers and addresses.
ghost use Rattle.std.specs.Prelude.{◌≡◌};
ghost use Rattle.text.specs.Numbers.{plain, digit_of, number_of, address_of};

use crate::pieces::Pieces;

// Is the word not empty, with a 0 in front only if it stands alone?
fn is_plain(word: &[u8]) -> bool
    ensures { result ≡ plain word.now }
{
    match word {
        [] => false,
        [_] => true,
        [first, ..] => *first != b'0',
    }
}

fn digit(byte: u8) -> Option<u32>
    ensures { result ≡ digit_of byte }
{
    char::from(byte).to_digit(10)
}

// Not by `parse`, which takes a plus and zeros in front.
// number = "0" | a digit from 1 to 9, then digits; at most `top`
pub(crate) fn number(word: &[u8], top: u32) -> Option<u32>
    ensures { result ≡ number_of top word.now }
{
    if !is_plain(word) {
        return None;
    }
    let mut value: u32 = 0;
    for byte in word {
        let wide = u64::from(value) * 10 + u64::from(digit(*byte)?);
        if wide > u64::from(top) {
            return None;
        }
        value = wide as u32;
    }
    Some(value)
}

// Not by the library's `Ipv4Addr`, since the definition of an address is four of the numbers above.
// address = four numbers up to 255 with full stops between them
pub(crate) fn address(word: &[u8]) -> Option<u32>
    ensures { result ≡ address_of word.now }
{
    let mut parts = Pieces::new(word, b'.');
    let mut value: u32 = 0;
    for _ in 0..4_usize {
        value = value * 256 + number(parts.next()?, 255)?;
    }
    match parts.next() {
        None => Some(value),
        Some(_) => None,
    }
}
