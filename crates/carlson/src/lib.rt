// Carlson's R_C, and ln, atan and atan2 by it. Arguments stay as the papers write them, one by one.
#![tactic(auto)]

ghost use Rattle.std.specs.Prelude.{◌≡◌, ℕ, ◌*◌, ◌^◌, ◌<◌, T};
ghost use Rattle.std.specs.Float.{binary64};
ghost use Rattle.std.specs.Float.Ieee.{of_int, minus};
ghost use Rattle.std.specs.Float.Ieee.Positive.{positive};
ghost use Rattle.roots.specs.Root.{Root};
ghost use Rattle.carlson.specs.CarlsonLoop.{max_rounds, quarter, loop_test};
ghost use Rattle.carlson.specs.Rounds.{rounds, Steps, Rounds};
ghost use Rattle.carlson.specs.Rc.{duplicate_c, test_c, series_c, rc_above, times_integral, rc, carlson_rc, rc_value};
ghost use Rattle.carlson.specs.Logarithm.{ln_at, ln};
ghost use Rattle.carlson.specs.LogarithmOfBits.{ln_of_bits};
ghost use Rattle.carlson.specs.Arctangent.{with_sign, atan_within, atan, atan2};

use refusals::Refusal;

// Document 01: a loop whose test still holds after so many rounds is refused by 15.
pub const MAX_ROUNDS: u32 = 64;

// (3ε)^(-1/8)
pub const RC_FACTOR: f64 = f64::from_bits(0x4053_b957_8eb0_bf54);

pub const LN_2: f64 = 0.6931471805599453;

// What the duplication of R_C carries from round to round: Carlson's x, y and A at round n, f = 4^-n, and n.
#[derive(Clone, Copy)]
pub struct RoundC {
    pub x: f64,
    pub y: f64,
    pub a: f64,
    pub f: f64,
    pub n: u32,
}

// ---- Rounds

// Steps from `start` while the test holds, at most `max`: the loop counts them.
pub fn repeat<S: Copy, T: Fn(S) -> bool, F: Fn(S) -> S>(max: u32, test: T, step: F, start: S) -> S
    requires tests { T.IsAlwaysCallable test }
    requires steps { (k : ℕ) (s : _) → k < max → Steps (F.post step) start k s → F.pre step s }
    ensures { Rounds (T.post test) (F.post step) max start result }
{
    let mut s = start;
    for _ in 0..max {
        if !test(s) {
            return s;
        }
        s = step(s);
    }
    s
}

// ---- R_C

// 4^-n Q ≥ |A|, where f is 4^-n.
#[tactic(auto, unfolding(crate::specs::CarlsonLoop::loop_test))]
pub fn loop_test(q: f64, a: f64, f: f64) -> bool
    ensures { result ≡ loop_test q a f }
{
    f * q >= doubles::abs(a)
}

// w / 4: the product with 1/4 gives the bits of the quotient for every double (doubles/specs/QuarterLaw).
pub fn quarter(w: f64) -> f64
    ensures { result ≡ quarter w }
{
    0.25 * w
}

// √x. atan's loop starts at x = 1, and the test spares it a root there.
fn root_of(x: f64) -> f64
    ensures { result ≡ Root x }
{
    if x == 1.0 {
        return 1.0;
    }
    roots::root(x)
}

// From round n to n + 1.
#[tactic(auto, unfolding(crate::specs::Rc::duplicate_c))]
fn duplicate_c(s: RoundC) -> RoundC
    requires { s.n < max_rounds }
    ensures { result ≡ duplicate_c s }
{
    let lambda = 2.0 * root_of(s.x) * roots::root(s.y) + s.y;
    RoundC {
        x: quarter(s.x + lambda),
        y: quarter(s.y + lambda),
        a: quarter(s.a + lambda),
        f: quarter(s.f),
        n: s.n + 1,
    }
}

// The series that ends R_C.
#[tactic(auto, unfolding(crate::specs::Rc::series_c))]
pub fn series_c(s: f64) -> f64
    ensures { result ≡ series_c s }
{
    1.0 + s
        * s
        * (3.0 / 10.0
            + s * (1.0 / 7.0
                + s * (3.0 / 8.0 + s * (9.0 / 22.0 + s * (159.0 / 208.0 + s * 9.0 / 8.0)))))
}

// R_C for y above zero.
fn rc_above(x: f64, y: f64) -> Result<f64, Refusal>
    ensures { result ≡ rc_above x y }
{
    let a0 = (x + 2.0 * y) / 3.0;
    let q = RC_FACTOR * doubles::abs(a0 - x);
    let first = RoundC {
        x,
        y,
        a: a0,
        f: 1.0,
        n: 0,
    };
    let s = repeat(MAX_ROUNDS, |t| loop_test(q, t.a, t.f), duplicate_c, first);
    if loop_test(q, s.a, s.f) {
        return Err(Refusal::TooManyRounds);
    }
    Ok(series_c((y - a0) * s.f / s.a) / roots::root(s.a))
}

// r times an integral, whose refusal is passed on.
pub fn times_integral(r: f64, c: Result<f64, Refusal>) -> Result<f64, Refusal>
    ensures { result ≡ times_integral r c }
{
    Ok(r * c?)
}

// R_C(x, y) without the tests of its domain: what inner calls use.
#[tactic(auto, unfolding(crate::specs::Rc::rc))]
pub fn rc(x: f64, y: f64) -> Result<f64, Refusal>
    ensures { result ≡ rc x y }
{
    if y == 0.0 {
        return Ok(f64::INFINITY);
    }
    if y < 0.0 {
        return times_integral(roots::root(x / (x - y)), rc_above(x - y, -y));
    }
    rc_above(x, y)
}

// Carlson's R_C(x, y), for finite arguments with x ≥ 0: refused by 14 outside that domain, and by 15
// where the loop's test still holds after MAX_ROUNDS.
#[tactic(auto, unfolding(crate::specs::Rc::carlson_rc))]
pub fn carlson_rc(x: f64, y: f64) -> Result<f64, Refusal>
    ensures { result ≡ carlson_rc x y }
{
    if doubles::is_finite(x) & doubles::is_finite(y) & (0.0 <= x) {
        return rc(x, y);
    }
    Err(Refusal::OutsideDomain)
}

// R_C's value. It is not refused where ln, atan and atan2 call this. Its proof opens the library's `of_bits`, which an attribute cannot name.
fn rc_value(x: f64, y: f64) -> f64
    ensures { result ≡ rc_value x y }
{
    rc(x, y).unwrap_or(f64::NAN)
}

// ---- ln

// k LN2 + (t - 1) R_C(h h, t), with h = (1 + t)/2.
#[tactic(auto, unfolding(crate::specs::Logarithm::ln_at))]
fn ln_at(k: f64, t: f64) -> f64
    ensures { result ≡ ln_at rc_value k t }
{
    let h = (1.0 + t) / 2.0;
    k * LN_2 + (t - 1.0) * rc_value(h * h, t)
}

// a - b as a double.
fn difference(a: u64, b: u64) -> f64
    requires { (a < 2 ^ 16) × (b < 2 ^ 16) }
    ensures { result ≡ of_int binary64 (minus a b) }
{
    if b <= a {
        return (a - b) as f64;
    }
    -((b - a) as f64)
}

// ln from the bit pattern of 2^h x, normal and above zero, with bias = 1023 + h. With digits below
// those of 3/2, t has the exponent's field of 1, else that of 1/2.
fn ln_of_bits(b: u64, bias: u64) -> f64
    requires { (b < 2047 * 2 ^ 52) × (bias < 2 ^ 16) }
    ensures { result ≡ ln_of_bits rc_value b bias }
{
    let field = b / 0x10_0000_0000_0000;
    let digits = b % 0x10_0000_0000_0000;
    if digits < 0x8_0000_0000_0000 {
        return ln_at(
            difference(field, bias),
            f64::from_bits(digits + 0x3ff0_0000_0000_0000),
        );
    }
    ln_at(
        difference(field + 1, bias),
        f64::from_bits(digits + 0x3fe0_0000_0000_0000),
    )
}

// ln of a number that is finite and above zero. A subnormal one is a whole number of 2^-1074.
fn ln_above(x: f64) -> f64
    requires { T (positive x) }
    ensures { result ≡ ln x }
{
    let b = f64::to_bits(x);
    if b < 0x10_0000_0000_0000 {
        return ln_of_bits(f64::to_bits(b as f64), 2097);
    }
    ln_of_bits(b, 1023)
}

// The natural logarithm.
pub fn ln(x: f64) -> f64
    ensures { result ≡ ln x }
{
    if x == 0.0 {
        return f64::NEG_INFINITY;
    }
    if x < f64::INFINITY {
        if 0.0 < x {
            return ln_above(x);
        }
        return f64::NAN;
    }
    x
}

// ---- atan, atan2

// w, which is above zero, with z's sign.
fn with_sign(z: f64, w: f64) -> f64
    ensures { result ≡ with_sign z w }
{
    if doubles::is_sign_negative(z) {
        return -w;
    }
    w
}

// The arctangent for |z| ≤ 1.
#[tactic(auto, unfolding(crate::specs::Arctangent::atan_within))]
fn atan_within(z: f64) -> f64
    ensures { result ≡ atan_within rc_value z }
{
    z * rc_value(1.0, 1.0 + z * z)
}

// The arctangent.
pub fn atan(z: f64) -> f64
    ensures { result ≡ atan z }
{
    if z != z {
        return z;
    }
    if doubles::abs(z) <= 1.0 {
        return atan_within(z);
    }
    with_sign(z, doubles::FRAC_PI_2) - atan_within(1.0 / z)
}

// The angle of the point (c, s).
pub fn atan2(s: f64, c: f64) -> f64
    ensures { result ≡ atan2 s c }
{
    if s != s {
        return s;
    }
    if c != c {
        return c;
    }
    if s == 0.0 {
        if doubles::is_sign_negative(c) {
            return with_sign(s, doubles::PI);
        }
        return s;
    }
    if c == 0.0 {
        return with_sign(s, doubles::FRAC_PI_2);
    }
    let a = atan(s / c);
    if c < 0.0 {
        return a + with_sign(s, doubles::PI);
    }
    a
}
