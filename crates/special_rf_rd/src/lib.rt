// Carlson's symmetric elliptic integrals R_F and R_D, and what they share with R_J. Arguments stay as the papers write them, one by one.
#![tactic(auto)]

ghost use Rattle.std.specs.Prelude.{◌≡◌};
ghost use Rattle.doubles.specs.Rounded.{◌⊕◌, ◌⊗◌};
ghost use Rattle.special_rf_rd.specs.Duplication.{max_distance, series};
ghost use Rattle.special_rf_rd.specs.Rf.{duplicate_f, series_f, rf};
ghost use Rattle.special_rf_rd.specs.Rd.{duplicate_d, series_d, rd};

use refusals::Refusal;

// (3ε)^(-1/6)
const RF_FACTOR: f64 = f64::from_bits(0x4075_261a_0375_6a90);

// (ε/4)^(-1/6), for R_D and R_J
pub const RD_FACTOR: f64 = f64::from_bits(0x407f_ffff_ffff_fffd);

// What the duplication of R_F carries from round to round: Carlson's x, y, z and A at round n, and
// f = 4^-n.
#[derive(Clone, Copy)]
pub struct RoundF {
    pub x: f64,
    pub y: f64,
    pub z: f64,
    pub a: f64,
    pub f: f64,
}

// The same for R_D, with its sum.
#[derive(Clone, Copy)]
pub struct RoundD {
    pub x: f64,
    pub y: f64,
    pub z: f64,
    pub a: f64,
    pub f: f64,
    pub sum: f64,
}

// The largest distance of x, y and z from Carlson's A at round 0.
#[tactic(auto, unfolding(crate::specs::Duplication::max_distance))]
fn max_distance(a0: f64, x: f64, y: f64, z: f64) -> f64
    ensures { result ≡ max_distance a0 x y z }
{
    let dx = doubles::abs(a0 - x);
    let dy = doubles::abs(a0 - y);
    let dz = doubles::abs(a0 - z);
    doubles::max(doubles::max(dx, dy), dz)
}

// Carlson's λ, from the roots of x, y and z.
pub fn lambda(sx: f64, sy: f64, sz: f64) -> f64
    ensures { result ≡ sx ⊗ sy ⊕ sx ⊗ sz ⊕ sy ⊗ sz }
{
    sx * sy + sx * sz + sy * sz
}

// The series that ends R_D and R_J.
#[tactic(auto, unfolding(crate::specs::Duplication::series))]
pub fn series(e2: f64, e3: f64, e4: f64, e5: f64) -> f64
    ensures { result ≡ series e2 e3 e4 e5 }
{
    1.0 - 3.0 * e2 / 14.0 + e3 / 6.0 + 9.0 * e2 * e2 / 88.0 - 3.0 * e4 / 22.0 - 9.0 * e2 * e3 / 52.0
        + 3.0 * e5 / 26.0
}

// ---- R_F

// From round n to n + 1.
#[tactic(auto, unfolding(crate::specs::Rf::duplicate_f))]
fn duplicate_f(s: RoundF) -> RoundF
    ensures { result ≡ duplicate_f s }
{
    let lambda = lambda(roots::root(s.x), roots::root(s.y), roots::root(s.z));
    RoundF {
        x: carlson::quarter(s.x + lambda),
        y: carlson::quarter(s.y + lambda),
        z: carlson::quarter(s.z + lambda),
        a: carlson::quarter(s.a + lambda),
        f: carlson::quarter(s.f),
    }
}

// The series that ends R_F, at Carlson's X and Y.
#[tactic(auto, unfolding(crate::specs::Rf::series_f))]
fn series_f(dx: f64, dy: f64) -> f64
    ensures { result ≡ series_f dx dy }
{
    let dz = -dx - dy;
    let e2 = dx * dy - dz * dz;
    let e3 = dx * dy * dz;
    1.0 - e2 / 10.0 + e3 / 14.0 + e2 * e2 / 24.0 - 3.0 * e2 * e3 / 44.0
}

// R_F(x, y, z) without the tests of its domain: what inner calls use.
pub fn rf(x: f64, y: f64, z: f64) -> Result<f64, Refusal>
    ensures { result ≡ rf x y z }
{
    let a0 = (x + y + z) / 3.0;
    let q = RF_FACTOR * max_distance(a0, x, y, z);
    let first = RoundF {
        x,
        y,
        z,
        a: a0,
        f: 1.0,
    };
    let s = carlson::repeat(
        carlson::MAX_ROUNDS,
        |t| carlson::loop_test(q, t.a, t.f),
        duplicate_f,
        first,
    );
    if carlson::loop_test(q, s.a, s.f) {
        return Err(Refusal::TooManyRounds);
    }
    Ok(series_f((a0 - x) * s.f / s.a, (a0 - y) * s.f / s.a) / roots::root(s.a))
}

// ---- R_D

// From round n to n + 1.
#[tactic(auto, unfolding(crate::specs::Rd::duplicate_d))]
fn duplicate_d(s: RoundD) -> RoundD
    ensures { result ≡ duplicate_d s }
{
    let sz = roots::root(s.z);
    let lambda = lambda(roots::root(s.x), roots::root(s.y), sz);
    RoundD {
        x: carlson::quarter(s.x + lambda),
        y: carlson::quarter(s.y + lambda),
        z: carlson::quarter(s.z + lambda),
        a: carlson::quarter(s.a + lambda),
        f: carlson::quarter(s.f),
        sum: s.sum + s.f / (sz * (s.z + lambda)),
    }
}

// The series that ends R_D, at Carlson's X and Y.
#[tactic(auto, unfolding(crate::specs::Rd::series_d))]
fn series_d(dx: f64, dy: f64) -> f64
    ensures { result ≡ series_d dx dy }
{
    let dz = -(dx + dy) / 3.0;
    series(
        dx * dy - 6.0 * dz * dz,
        (3.0 * dx * dy - 8.0 * dz * dz) * dz,
        3.0 * (dx * dy - dz * dz) * dz * dz,
        dx * dy * (dz * dz * dz),
    )
}

// R_D(x, y, z) without the tests of its domain: what inner calls use.
pub fn rd(x: f64, y: f64, z: f64) -> Result<f64, Refusal>
    ensures { result ≡ rd x y z }
{
    let a0 = (x + y + 3.0 * z) / 5.0;
    let q = RD_FACTOR * max_distance(a0, x, y, z);
    let first = RoundD {
        x,
        y,
        z,
        a: a0,
        f: 1.0,
        sum: 0.0,
    };
    let s = carlson::repeat(
        carlson::MAX_ROUNDS,
        |t| carlson::loop_test(q, t.a, t.f),
        duplicate_d,
        first,
    );
    if carlson::loop_test(q, s.a, s.f) {
        return Err(Refusal::TooManyRounds);
    }
    Ok(
        s.f / (s.a * roots::root(s.a)) * series_d((a0 - x) * s.f / s.a, (a0 - y) * s.f / s.a)
            + 3.0 * s.sum,
    )
}
