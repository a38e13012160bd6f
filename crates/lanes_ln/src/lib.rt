// ln of several numbers side by side. A loop walks several arrays in step, by an index from 0 to N - 1: of one body over fixed arrays the
// compiler makes packed instructions, and a chain of zipped iterators would be no plainer. Each number has an array of its own: `lanes_rc` takes h and t so, and a
// struct of s, t and h would be made and taken apart in `ln` alone.
#![tactic(auto)]

ghost use Rattle.std.specs.Prelude.{◌≡◌, true, ℕ, ◌<◌, IfSome};
ghost use Rattle.carlson.specs.Logarithm.{ln};
ghost use Rattle.lanes.specs.Lanes.{lane, Lanes};
ghost use Rattle.lanes_ln.specs.LnLanes.{Normal, pattern_of, scale_of, fraction_of, scale_at, fraction_at, square_at};

use carlson::LN_2;
use lanes::pick;

// The smallest normal number above zero, 2^-1022, and the largest.
const SMALLEST: f64 = f64::from_bits(0x10_0000_0000_0000);

const LARGEST: f64 = f64::from_bits(0x7fef_ffff_ffff_ffff);

// Whether x is normal and above zero: what a yes means.
fn is_normal(x: f64) -> bool
    ensures { result ≡ true → Normal x }
{
    (SMALLEST <= x) & (x <= LARGEST)
}

// The bit pattern of x, or of the largest number where x is not up to it: never a NaN's.
fn pattern_of(x: f64) -> u64
    ensures { result ≡ pattern_of x }
{
    f64::to_bits(pick(x <= LARGEST, x, LARGEST))
}

// k of a pattern's 2^k t, with 3/4 ≤ t < 3/2.
fn scale_of(b: u64) -> f64
    ensures { result ≡ scale_of b }
{
    let n = b / 0x10_0000_0000_0000 + b % 0x10_0000_0000_0000 / 0x8_0000_0000_0000;
    n as f64 - 1023.0
}

// t of a pattern's 2^k t.
fn fraction_of(b: u64) -> f64
    ensures { result ≡ fraction_of b }
{
    let d = b % 0x10_0000_0000_0000;
    f64::from_bits(d + 0x3ff0_0000_0000_0000 - d / 0x8_0000_0000_0000 * 0x10_0000_0000_0000)
}

// Whether each x is normal and above zero: what a yes means. No lane ends the loop early, so that the tests are packed.
fn all_normal<const N: usize>(x: &[f64; N]) -> bool
    ensures { result ≡ true → (k : ℕ) → k < N → Normal (lane x.now k) }
{
    let mut normal = true;
    for xk in x {
        normal = normal & is_normal(*xk);
    }
    normal
}

// k, t and ((1 + t)/2)² of each lane.
fn split<const N: usize>(x: &[f64; N], s: &mut [f64; N], t: &mut [f64; N], h: &mut [f64; N])
    ensures { (Lanes N (λ (k : ℕ). scale_at (lane x.now k)) s.new)
        × (Lanes N (λ (k : ℕ). fraction_at (lane x.now k)) t.new)
        × (Lanes N (λ (k : ℕ). square_at (lane x.now k)) h.new) }
{
    for k in 0..N {
        let b = pattern_of(x[k]);
        let tk = fraction_of(b);
        let m = (1.0 + tk) / 2.0;
        s[k] = scale_of(b);
        t[k] = tk;
        h[k] = m * m;
    }
}

// ln of each lane, if each x is normal and above zero. Only what a Some holds is promised: after a None the caller takes the
// logarithms one by one, so that a wrong None would cost time and no answer.
pub fn ln<const N: usize>(x: &[f64; N]) -> Option<[f64; N]>
    ensures { IfSome result (Lanes N (λ (k : ℕ). ln (lane x.now k))) }
{
    if !all_normal(x) {
        return None;
    }
    let mut s = [0.0; N];
    let mut t = [0.0; N];
    let mut h = [0.0; N];
    let mut c = [0.0; N];
    split(x, &mut s, &mut t, &mut h);
    lanes_rc::rc(&h, &t, &mut c);
    let mut out = [0.0; N];
    for k in 0..N {
        out[k] = s[k] * LN_2 + (t[k] - 1.0) * c[k];
    }
    Some(out)
}
