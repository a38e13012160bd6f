// Lists of the reference build's answers, for the programs that replay them: numbers of 16 hexadecimal digits, each followed by one byte, a
// space or a line's end. Test programs are tested, each by a changed list on which it reports a difference, and not proved: what is proved of
// them is that they are safe and end.
#![tactic(auto)]

pub mod lines;
pub mod runs;

ghost use Rattle.std.specs.Prelude.{◌≤◌};

use newtonian::Vector;
use refusals::Refusal;

// The value of a hexadecimal digit, in lower case alone.
fn digit(byte: u8) -> Option<u8> {
    match byte {
        b'0'..=b'9' => Some(byte - b'0'),
        b'a'..=b'f' => Some(byte - b'a' + 10),
        _ => None,
    }
}

// The number in a place of the list, 16 digits and one byte more.
fn word(place: &[u8; 17]) -> Option<u64> {
    place[..16].iter().try_fold(
        0,
        |value, byte| Some((value << 4) | u64::from(digit(*byte)?)),
    )
}

// Whether there is a number in each place of the list.
pub fn are_words(s: &[u8]) -> bool {
    let (places, _) = s.as_chunks();
    places.iter().all(|place| word(place).is_some())
}

// The number that stands in place k of the list. All ones, which no list holds, past the list's end and where a byte is no digit.
pub fn word_at(s: &[u8], k: usize) -> u64 {
    let (places, _) = s.as_chunks();
    places.get(k).and_then(word).unwrap_or(u64::MAX)
}

// The list from place k on, of which nothing is left past its end.
pub fn from_place(s: &[u8], k: usize) -> &[u8] {
    s.get(k.saturating_mul(17)..).unwrap_or(&[])
}

// The double of those bits.
pub fn double_at(s: &[u8], k: usize) -> f64 {
    doubles::of_bits(word_at(s, k))
}

// The doubles in place k and the two after it.
pub fn vector_at(s: &[u8], k: usize) -> Vector
    requires { k ≤ 1000000 }
{
    Vector {
        x: double_at(s, k),
        y: double_at(s, k + 1),
        z: double_at(s, k + 2),
    }
}

// How a list writes a refusal: 0x7ff0000000000000 + its number, a NaN's bits that no answer has.
pub fn refused(r: Refusal) -> u64 {
    0x7ff0_0000_0000_0000 + u64::from(r.number())
}
