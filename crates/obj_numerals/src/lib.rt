// Whole numbers: which doubles are, and their decimal digits into a text.
#![tactic(auto)]

pub mod cursor;

ghost use Rattle.std.specs.Prelude.{◌≡◌, ◌^◌, ◌<◌, ◌≤◌, true, length};
ghost use Rattle.obj.specs.Whole.{is_whole, magnitude_of};
ghost use Rattle.obj.specs.Writer.{numeral, coordinate, max_coordinate};

use doubles::{abs, is_sign_negative};
use std::num::saturating_f64_to_u64;

// Whether x is a whole number of magnitude at most limit. The cast takes a NaN to 0, which does not equal it, and an infinity to the largest u64.
#[tactic(auto, using(crate::proofs::Wholes::whole_over, crate::proofs::Wholes::whole_test))]
pub fn is_whole(limit: u64, x: f64) -> bool
    requires { limit < 2 ^ 53 }
    ensures { result ≡ is_whole limit x }
{
    let a = abs(x);
    let n = saturating_f64_to_u64(a);
    n <= limit && n as f64 == a
}

// The magnitude of a coordinate.
#[tactic(auto, using(crate::proofs::Wholes::whole_limit, crate::proofs::Wholes::whole_part))]
fn magnitude(x: f64) -> u64
    requires { is_whole max_coordinate x ≡ true }
    ensures value { result ≡ magnitude_of x }
    ensures small { result ≤ max_coordinate }
{
    saturating_f64_to_u64(abs(x))
}

// How many digits n has. 0 has one.
#[tactic(auto, using(crate::proofs::Numerals::size_is))]
pub fn numeral_size(n: u64) -> usize
    requires { n ≤ max_coordinate }
    ensures { result ≡ length (numeral n) }
{
    n.checked_ilog10().unwrap_or(0) as usize + 1
}

// How many bytes the text of x has.
#[tactic(auto, using(crate::proofs::Numerals::numeral_short), unfolding(obj::specs::Writer::coordinate))]
pub fn coordinate_size(x: f64) -> usize
    requires { is_whole max_coordinate x ≡ true }
    ensures { result ≡ length (coordinate x) }
{
    let size = numeral_size(magnitude(x));
    if is_sign_negative(x) { 1 + size } else { size }
}
