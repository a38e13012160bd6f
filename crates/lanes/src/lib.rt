// Several numbers side by side, the lanes of an array: a choice without a branch, and roots. A loop over the lanes of a fixed array, with
// one body for all of them, is what the compiler makes packed instructions of. The width N is known where the code is compiled.
#![tactic(auto)]

ghost use Rattle.std.specs.Prelude.{◌≡◌, ℕ, if◌then◌else◌};
ghost use Rattle.roots.specs.Root.{Root};
ghost use Rattle.lanes.specs.Lanes.{lane, Lanes};

// a where t holds, else b. t is what a test of this lane's numbers gave; there is one step for both.
pub fn pick(t: bool, a: f64, b: f64) -> f64
    ensures { result ≡ (if t then a else b) }
{
    if t { a } else { b }
}

// The roots of N numbers. They are gathered in w, which no other reference reaches: written to r at once, the loop would not be packed, since
// the compiler does not know r apart from x.
pub fn roots<const N: usize>(x: &[f64; N], r: &mut [f64; N])
    ensures { Lanes N (λ (k : ℕ). Root (lane x.now k)) r.new }
{
    let mut w = [0.0; N];
    for (k, wk) in w.iter_mut().enumerate() {
        *wk = roots::root(x[k]);
    }
    *r = w;
}
