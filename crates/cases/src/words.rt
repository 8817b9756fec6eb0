// The words of a case.
ghost use Rattle.std.specs.Prelude.{◌≡◌, ◌++◌, IfOk};
ghost use Rattle.packet.specs.Packets.{tops, values};
ghost use Rattle.cases.specs.Words.{digit_of, bytes_of, number_of, numbers};

use packet::{Field, Packet};
use std::alloc::{AllocError, Global};

// The value of a hexadecimal digit in lower case; any other byte counts as 0.
fn digit(byte: u8) -> u8
    ensures { result ≡ digit_of byte }
{
    match byte {
        b'0'..=b'9' => byte - b'0',
        b'a'..=b'f' => byte - b'a' + 10,
        _ => 0,
    }
}

// The bytes that a word writes in hexadecimal digits, two to a byte; a last digit with no partner is left out.
pub fn bytes(heap: Global, word: &str) -> Result<Vec<u8>, AllocError>
    ensures { IfOk result (λ bytes. bytes.items ≡ bytes_of word.now) }
{
    let mut bytes = Vec::new(heap);
    let mut rest = word.as_bytes();
    'pairs: while let [high, low, tail @ ..] = rest {
        bytes.push(digit(*high) * 16 + digit(*low))?;
        rest = tail;
    }
    Ok(bytes)
}

// The number that a word writes; 0 where it writes none.
#[tactic(auto, using(crate::proofs::Numerals::parsed))]
pub fn number(word: &str) -> u32
    ensures { result ≡ number_of word.now }
{
    word.parse().unwrap_or(0)
}

// The packet that words write, a number for each field; where a word is wanting it is 0, and a number above the field's largest counts
// as the largest.
#[tactic(auto, using(crate::proofs::Fields::all_filled))]
pub fn packet(words: &[&str]) -> Packet
    ensures { values result ≡ numbers tops words.now }
{
    let mut packet = Packet::default();
    'fields: for (field, word) in Field::ALL.iter().zip(words) {
        packet = packet.with(*field, number(word));
    }
    packet
}
