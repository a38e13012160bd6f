// Numbers and indices as fields of a line.
ghost use Rattle.std.specs.Prelude.{◌≡◌, true, false, List, [], ◌∷◌, ℕ, ◌%◌, ◌^◌, ◌≤◌, ◌<◌, Some, MatchOption, MatchResult};
ghost use Rattle.std.specs.List.{fold, list_all};
ghost use Rattle.obj.specs.Text.{point, split};
ghost use Rattle.obj.specs.Decimal.{is_digits, is_zero_digit, is_index, is_number, one_or_two, max_digits, value_of, with_digit};
ghost use Rattle.obj_lines.specs.Parts.{StandsAround, IsNumber, IsIndex, IsUnsigned, readings_cause};

use crate::decimal::Decimal;
use crate::fields::find;
use refusals::Refusal;

// More than these are refused by 22.
const MAX_DIGITS: usize = 15;

// A power of ten. Up to 14 places stand after the point of a number of 15 digits.
fn power(places: usize) -> u64
    ensures value { places < max_digits → result ≡ 10 ^ places }
    ensures small { result ≤ 100000000000000 }
{
    match places {
        0 => 1,
        1 => 10,
        2 => 100,
        3 => 1_000,
        4 => 10_000,
        5 => 100_000,
        6 => 1_000_000,
        7 => 10_000_000,
        8 => 100_000_000,
        9 => 1_000_000_000,
        10 => 10_000_000_000,
        11 => 100_000_000_000,
        12 => 1_000_000_000_000,
        13 => 10_000_000_000_000,
        _ => 100_000_000_000_000,
    }
}

// The digits divided once by the power of ten, negated after a minus.
pub fn value(n: Decimal) -> f64
    requires { n.digits ≤ max_digits }
    ensures { (s : List ℕ) → IsNumber s n → result ≡ value_of s }
{
    let quotient = n.whole as f64 / power(n.places) as f64;
    if n.negative { -quotient } else { quotient }
}

// One or more digits, behind those of a whole number, modulo 2^64: a field of any length is walked to its end, since a wrong form counts before too many digits.
fn digits(text: &[u8], behind: u64) -> Option<u64>
    ensures { MatchOption result (is_digits text.now ≡ false) (λ n. (is_digits text.now ≡ true) × (n ≡ fold with_digit behind text.now % 2 ^ 64)) }
{
    if text.is_empty() {
        return None;
    }
    let mut whole = behind;
    for b in text {
        if !b.is_ascii_digit() {
            return None;
        }
        whole = whole.wrapping_mul(10).wrapping_add((*b - b'0') as u64);
    }
    Some(whole)
}

// What stands before the first point, and what stands behind it.
fn split_point(text: &[u8]) -> Option<(&[u8], &[u8])>
    ensures { MatchOption result (split point text.now ≡ text.now ∷ []) (λ p. StandsAround text.now p.0.now p.1.now) }
{
    let at = find(text, b'.')?;
    Some((&text[..at], &text[at + 1..]))
}

// One or more digits, and, optionally, a point and one or more digits.
fn unsigned(text: &[u8], negative: bool) -> Option<Decimal>
    ensures { MatchOption result (one_or_two (split point text.now) ≡ false) (λ n. IsUnsigned text.now n × (n.negative ≡ negative)) }
{
    let Some((front, back)) = split_point(text) else {
        let whole = digits(text, 0)?;
        return Some(Decimal {
            negative,
            whole,
            digits: text.len(),
            places: 0,
        });
    };
    let before = digits(front, 0)?;
    let all = digits(back, before)?;
    Some(Decimal {
        negative,
        whole: all,
        digits: front.len() + back.len(),
        places: back.len(),
    })
}

// A field as a number.
pub fn number(field: &[u8]) -> Option<Decimal>
    ensures { MatchOption result (is_number field.now ≡ false) (IsNumber field.now) }
{
    let (first, rest) = field.split_first()?;
    if *first == b'-' {
        return unsigned(rest, true);
    }
    unsigned(field, false)
}

fn all_zeros(text: &[u8]) -> bool
    ensures { result ≡ list_all is_zero_digit text.now }
{
    text.iter().all(|b| *b == b'0')
}

// A field as an index: digits, not all of them 0.
pub fn index(field: &[u8]) -> Option<Decimal>
    ensures { MatchOption result (is_index field.now ≡ false) (IsIndex field.now) }
{
    let whole = digits(field, 0)?;
    if all_zeros(field) {
        return None;
    }
    Some(Decimal {
        negative: false,
        whole,
        digits: field.len(),
        places: 0,
    })
}

// Three fields, each of the right form, and none of too many digits: a wrong form counts first, wherever in the line it stands.
pub fn all_right(
    x: Option<Decimal>,
    y: Option<Decimal>,
    z: Option<Decimal>,
) -> Result<(Decimal, Decimal, Decimal), Refusal>
    ensures { MatchResult result (λ p. (readings_cause x y z ≡ Ok tt) × (x ≡ Some p.0) × (y ≡ Some p.1) × (z ≡ Some p.2)) (λ r. readings_cause x y z ≡ Err r) }
{
    let x = x.ok_or(Refusal::WrongLine)?;
    let y = y.ok_or(Refusal::WrongLine)?;
    let z = z.ok_or(Refusal::WrongLine)?;
    if x.digits.max(y.digits).max(z.digits) > MAX_DIGITS {
        return Err(Refusal::TooManyDigits);
    }
    Ok((x, y, z))
}
