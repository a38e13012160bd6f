// Constants; bits, magnitude, sign, order and finiteness of an f64, on every bit pattern.
#![tactic(auto)]

ghost use Rattle.std.specs.Prelude.{◌≡◌};
ghost use Rattle.std.specs.Float.{binary64};
ghost use Rattle.std.specs.Float.Ieee.{of_bits, to_bits};
ghost use Rattle.std.specs.Float.Ieee.Scale.{finite};
ghost use Rattle.doubles.specs.Magnitude.{abs, max, min, negative, within_limits};

// The Rust's constants: π, π/2, and the distance from 1 to the next double, 2^-52.
pub const PI: f64 = std::f64::consts::PI;

pub const FRAC_PI_2: f64 = std::f64::consts::FRAC_PI_2;

pub const EPSILON: f64 = f64::EPSILON;

// The double of a bit pattern. Every NaN pattern is the one NaN.
pub fn of_bits(b: u64) -> f64
    ensures { result ≡ of_bits binary64 b }
{
    std::num::f64_from_bits_with_nan(b)
}

// The bit pattern of a double. A NaN's is 0x7ff8000000000000.
pub fn to_bits(x: f64) -> u64
    ensures { result ≡ to_bits binary64 x }
{
    std::num::f64_to_bits_with_nan(x)
}

// |x|, a NaN staying one. `x.abs()` asks for the sign and for zero: half as many instructions again.
pub fn abs(x: f64) -> f64
    ensures { result ≡ abs x }
{
    if x.is_nan() {
        return x;
    }
    f64::from_bits(f64::to_bits(x) & 0x7fff_ffff_ffff_ffff)
}

// The sign bit, of a zero too; false for a NaN.
pub fn is_sign_negative(x: f64) -> bool
    ensures { result ≡ negative x }
{
    !x.is_nan() && x.is_sign_negative()
}

// The larger of x and y, x where they are equal. A NaN is passed over. Of 0 and -0 `x.max(y)` may answer either one.
pub fn max(x: f64, y: f64) -> f64
    ensures { result ≡ max x y }
{
    if x.is_nan() | (x < y) { y } else { x }
}

// The smaller of x and y, likewise.
pub fn min(x: f64, y: f64) -> f64
    ensures { result ≡ min x y }
{
    if x.is_nan() | (y < x) { y } else { x }
}

// Neither a NaN nor an infinity.
pub fn is_finite(x: f64) -> bool
    ensures { result ≡ finite x }
{
    x.is_finite()
}

// The test of refusal 3: finite, and of magnitude at most 10⁹. The second implies the first.
pub fn within_limits(x: f64) -> bool
    ensures { result ≡ within_limits x }
{
    abs(x) <= 1e9
}
