// atan2 of several pairs of numbers side by side. A loop goes over the lanes that it writes, and reads the other arrays at the same place: of
// one body over fixed arrays the compiler makes packed instructions.
#![tactic(auto)]

ghost use Rattle.std.specs.Prelude.{◌≡◌, true, ℕ, ◌<◌, IfSome};
ghost use Rattle.std.specs.Float.Ieee.{le};
ghost use Rattle.doubles.specs.Rounded.{◌⊕◌, ◌⊗◌, ◌⊘◌};
ghost use Rattle.doubles.specs.Constants.{1·0};
ghost use Rattle.doubles.specs.Magnitude.{abs};
ghost use Rattle.carlson.specs.Arctangent.{atan2};
ghost use Rattle.lanes.specs.Lanes.{lane, Lanes};
ghost use Rattle.lanes_atan2.specs.AtanLanes.{Proper, reduced, signed, atan_from, atan2_from};

use doubles::abs;
use lanes::pick;

// w with the sign of z, where z is not zero.
fn signed(z: f64, w: f64) -> f64
    ensures { result ≡ signed z w }
{
    pick(z < 0.0, -w, w)
}

// Whether s and c are not zero and s/c is a number: what a yes means.
fn is_proper(s: f64, c: f64) -> bool
    ensures { result ≡ true → Proper s c }
{
    let z = s / c;
    (s != 0.0) & (c != 0.0) & (z == z)
}

// atan z, from v = w R_C(1, 1 + w²) where w is z or 1/z.
pub fn atan_from(z: f64, v: f64) -> f64
    ensures { result ≡ atan_from z v }
{
    pick(abs(z) <= 1.0, v, signed(z, doubles::FRAC_PI_2) - v)
}

// The angle of the point (c, s), from a = atan(s/c).
fn atan2_from(s: f64, c: f64, a: f64) -> f64
    ensures { result ≡ atan2_from s c a }
{
    pick(c < 0.0, a + signed(s, doubles::PI), a)
}

// s/c of each lane, if s and c are proper in each. The lanes are all computed, and whether they are proper is looked at after the
// loop: a branch inside would undo the packed instructions.
fn quotients<const N: usize>(s: &[f64; N], c: &[f64; N]) -> Option<[f64; N]>
    ensures { IfSome result (λ z. (Lanes N (λ (k : ℕ). lane s.now k ⊘ lane c.now k) z)
        × ((k : ℕ) → k < N → Proper (lane s.now k) (lane c.now k))) }
{
    let mut good = true;
    let mut z = [0.0; N];
    for (k, zk) in z.iter_mut().enumerate() {
        let sk = s[k];
        let ck = c[k];
        good = good & is_proper(sk, ck);
        *zk = sk / ck;
    }
    if !good {
        return None;
    }
    Some(z)
}

// Whether |z| is up to 1 in every lane: what a yes means. No lane ends the loop early, so that the tests are packed.
fn all_within<const N: usize>(z: &[f64; N]) -> bool
    ensures { result ≡ true → (k : ℕ) → k < N → le (abs (lane z.now k)) 1·0 ≡ true }
{
    let mut within = true;
    for zk in z {
        within = within & (abs(*zk) <= 1.0);
    }
    within
}

// z, or 1/z where |z| is beyond 1, of each lane. w is z's copy, so that nothing is divided where no lane is beyond 1.
fn reduce<const N: usize>(z: &[f64; N], w: &mut [f64; N])
    requires { w.old ≡ z.now }
    ensures { Lanes N (λ (k : ℕ). reduced (lane z.now k)) w.new }
{
    if all_within(z) {
        return;
    }
    for (k, wk) in w.iter_mut().enumerate() {
        let zk = z[k];
        *wk = pick(abs(zk) <= 1.0, zk, 1.0 / zk);
    }
}

// 1 + w² of each lane.
fn one_and_square<const N: usize>(w: &[f64; N], y: &mut [f64; N])
    ensures { Lanes N (λ (k : ℕ). 1·0 ⊕ lane w.now k ⊗ lane w.now k) y.new }
{
    for (k, yk) in y.iter_mut().enumerate() {
        let wk = w[k];
        *yk = 1.0 + wk * wk;
    }
}

// atan2 of each lane, if s and c are not zero and their quotient is a number in each. Only what a Some holds is promised: after a None
// the caller takes the angles one by one, so that a wrong None would cost time and no answer.
pub fn atan2<const N: usize>(s: &[f64; N], c: &[f64; N]) -> Option<[f64; N]>
    ensures { IfSome result (λ a. (Lanes N (λ (k : ℕ). atan2 (lane s.now k) (lane c.now k)) a)
        × ((k : ℕ) → k < N → Proper (lane s.now k) (lane c.now k))) }
{
    let z = quotients(s, c)?;
    let one = [1.0; N];
    let mut y = [0.0; N];
    let mut r = [0.0; N];
    let mut w = z;
    reduce(&z, &mut w);
    one_and_square(&w, &mut y);
    lanes_rc::rc(&one, &y, &mut r);
    let mut a = [0.0; N];
    for (k, ak) in a.iter_mut().enumerate() {
        *ak = atan2_from(s[k], c[k], atan_from(z[k], w[k] * r[k]));
    }
    Some(a)
}
