// Carlson's R_C of several numbers side by side. The lanes go through the loop together; one whose test fails stays as it is. Several
// arrays are walked in step, so the loops over lanes count an index from 0 to N - 1: of one body over fixed arrays the compiler makes
// packed instructions, and a chain of zipped iterators would be no plainer. Each number has an array of its own, and no struct has them: the functions lend other ones to
// read and other ones to write, and of x and y, which change only where a test holds, the rounds make copies then.
#![tactic(auto)]

ghost use Rattle.std.specs.Prelude.{◌≡◌, cond, false, ℕ, ◌<◌};
ghost use Rattle.doubles.specs.Rounded.{◌⊕◌, ◌⊗◌};
ghost use Rattle.doubles.specs.Constants.{2·0};
ghost use Rattle.roots.specs.Root.{Root};
ghost use Rattle.carlson.specs.CarlsonLoop.{loop_test};
ghost use Rattle.carlson.specs.Rc.{A₀C, QC};
ghost use Rattle.lanes.specs.Lanes.{lane, Lanes};
ghost use Rattle.lanes_rc.specs.LaneRounds.{States, Ended, after_one, after_all, ending, rc_number};

use carlson::{RC_FACTOR, loop_test, quarter, series_c};
use lanes::{pick, roots};

// λ of a round, where the lane makes one, which t says: the lane's own test. Where it makes none nobody asks for λ, and the two roots are saved.
pub fn lambda_if(t: bool, x: f64, y: f64) -> f64
    ensures { result ≡ cond t (2·0 ⊗ Root x ⊗ Root y ⊕ y) y }
{
    if t {
        return 2.0 * roots::root(x) * roots::root(y) + y;
    }
    y
}

// Whether the loop's test holds in some lane. A no says that it fails in all; a wrong yes would cost a round that changes nothing.
fn any_holds<const N: usize>(q: &[f64; N], a: &[f64; N], f: &[f64; N]) -> bool
    ensures { result ≡ false → (k : ℕ) → k < N → loop_test (lane q.now k) (lane a.now k) (lane f.now k) ≡ false }
{
    let mut any = false;
    for k in 0..N {
        any = any | loop_test(q[k], a[k], f[k]);
    }
    any
}

// A round in each lane whose test holds.
fn round<const N: usize>(
    q: &[f64; N],
    x: &mut [f64; N],
    y: &mut [f64; N],
    a: &mut [f64; N],
    f: &mut [f64; N],
)
    ensures { States N (after_one q.now x.old y.old a.old f.old)
        x.new y.new a.new f.new }
{
    for k in 0..N {
        let xk = x[k];
        let yk = y[k];
        let ak = a[k];
        let fk = f[k];
        let t = loop_test(q[k], ak, fk);
        let lambda = lambda_if(t, xk, yk);
        x[k] = pick(t, quarter(xk + lambda), xk);
        y[k] = pick(t, quarter(yk + lambda), yk);
        a[k] = pick(t, quarter(ak + lambda), ak);
        f[k] = pick(t, quarter(fk), fk);
    }
}

// Rounds in each lane while its test holds, at most 64. Where no test holds, x and y are not copied.
fn rounds<const N: usize>(
    x: &[f64; N],
    y: &[f64; N],
    q: &[f64; N],
    a: &mut [f64; N],
    f: &mut [f64; N],
)
    ensures { Ended N (after_all q.now x.now y.now a.old f.old)
        a.new f.new }
{
    if !any_holds(q, a, f) {
        return;
    }
    let mut xx = *x;
    let mut yy = *y;
    for _ in 0..carlson::MAX_ROUNDS {
        round(q, &mut xx, &mut yy, a, f);
        if !any_holds(q, a, f) {
            return;
        }
    }
}

// A₀ and Q of each lane.
fn starts<const N: usize>(x: &[f64; N], y: &[f64; N], m: &mut [f64; N], q: &mut [f64; N])
    ensures { (Lanes N (λ (k : ℕ). A₀C (lane x.now k) (lane y.now k)) m.new)
        × (Lanes N (λ (k : ℕ). QC (lane x.now k) (lane y.now k)) q.new) }
{
    for k in 0..N {
        let xk = x[k];
        let a0 = (xk + 2.0 * y[k]) / 3.0;
        m[k] = a0;
        q[k] = RC_FACTOR * doubles::abs(a0 - xk);
    }
}

// The series that ends R_C, from A₀, f = 4^-n and A of each lane.
fn endings<const N: usize>(
    y: &[f64; N],
    m: &[f64; N],
    f: &[f64; N],
    a: &[f64; N],
    out: &mut [f64; N],
)
    ensures { Lanes N (λ (k : ℕ). ending (lane y.now k) (lane m.now k) (lane f.now k) (lane a.now k)) out.new }
{
    let mut r = [0.0; N];
    roots(a, &mut r);
    for k in 0..N {
        out[k] = series_c((y[k] - m[k]) * f[k] / a[k]) / r[k];
    }
}

// R_C(x, y) of each lane, where y is above zero and R_C is not refused.
pub fn rc<const N: usize>(x: &[f64; N], y: &[f64; N], out: &mut [f64; N])
    ensures { Lanes N (λ (k : ℕ). rc_number (lane x.now k) (lane y.now k)) out.new }
{
    let mut m = [0.0; N];
    let mut q = [0.0; N];
    starts(x, y, &mut m, &mut q);
    let mut a = m;
    let mut f = [1.0; N];
    rounds(x, y, &q, &mut a, &mut f);
    endings(y, &m, &f, &a, out);
}
