// atan of several numbers side by side. A loop walks several arrays in step, by an index from 0 to N - 1: of one body over fixed arrays the
// compiler makes packed instructions, and a chain of zipped iterators would be no plainer. Each number has an array of its own, as `lanes_rc` takes them.
#![tactic(auto)]

ghost use Rattle.std.specs.Prelude.{ℕ};
ghost use Rattle.doubles.specs.Rounded.{◌⊕◌, ◌⊗◌};
ghost use Rattle.doubles.specs.Constants.{1·0};
ghost use Rattle.carlson.specs.Arctangent.{atan};
ghost use Rattle.lanes.specs.Lanes.{lane, Lanes};
ghost use Rattle.lanes_atan2.specs.AtanLanes.{reduced};

use doubles::abs;
use lanes::pick;
use lanes_atan2::atan_from;

// w, which is z, or 1/z where |z| is beyond 1, and y = 1 + w² of each lane.
fn reduce<const N: usize>(z: &[f64; N], w: &mut [f64; N], y: &mut [f64; N])
    ensures { (Lanes N (λ (k : ℕ). reduced (lane z.now k)) w.new)
        × (Lanes N (λ (k : ℕ). 1·0 ⊕ reduced (lane z.now k) ⊗ reduced (lane z.now k)) y.new) }
{
    for k in 0..N {
        let zk = z[k];
        let wk = pick(abs(zk) <= 1.0, zk, 1.0 / zk);
        w[k] = wk;
        y[k] = 1.0 + wk * wk;
    }
}

// atan of each lane.
pub fn atan<const N: usize>(z: &[f64; N], out: &mut [f64; N])
    ensures { Lanes N (λ (k : ℕ). atan (lane z.now k)) out.new }
{
    let one = [1.0; N];
    let mut w = [0.0; N];
    let mut y = [0.0; N];
    let mut r = [0.0; N];
    reduce(z, &mut w, &mut y);
    lanes_rc::rc(&one, &y, &mut r);
    for k in 0..N {
        out[k] = atan_from(z[k], w[k] * r[k]);
    }
}
