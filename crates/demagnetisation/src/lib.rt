// Demagnetising factors of an ellipsoid, the magnetisation that they allow, and the Königsberger ratio. Arguments stay one by one, as C passes them and the formulas
// name them: the semi-axes are taken in turn, and a struct of susceptibility, field and remanence would be made anew by each call from C, for one formula with a tensor and one
// without, and every formula takes the three apart.
#![tactic(auto)]

ghost use Rattle.std.specs.Prelude.{◌≡◌};
ghost use Rattle.demagnetisation.specs.Ellipsoid.{factor, together, factors_of, all_positive, ellipsoid_factors};
ghost use Rattle.demagnetisation.specs.Magnetisation.{equation, magnetisation_of, magnetisation_within_limits, magnetisation, koenigsberger_of, koenigsberger};

use anomaly::both_within_limits;
use linalg::Row;
use newtonian::{Hessian, Vector};
use refusals::Refusal;

// ---- the ellipsoid

// The factor along the semi-axis z.
#[tactic(auto, unfolding(crate::specs::Ellipsoid::factor))]
fn factor(x: f64, y: f64, z: f64) -> Result<f64, Refusal>
    ensures { result ≡ factor x y z }
{
    carlson::times_integral(x * y * z / 3.0, special_rf_rd::rd(x * x, y * y, z * z))
}

// Three factors, or the first refusal among them.
#[tactic(auto, unfolding(crate::specs::Ellipsoid::together))]
fn together(
    a: Result<f64, Refusal>,
    b: Result<f64, Refusal>,
    c: Result<f64, Refusal>,
) -> Result<Vector, Refusal>
    ensures { result ≡ together a b c }
{
    Ok(Vector {
        x: a?,
        y: b?,
        z: c?,
    })
}

// The factors of semi-axes that are not tested.
#[tactic(auto, unfolding(crate::specs::Ellipsoid::factors_of))]
pub fn factors_of(a: f64, b: f64, c: f64) -> Result<Vector, Refusal>
    ensures { result ≡ factors_of a b c }
{
    together(factor(b, c, a), factor(c, a, b), factor(a, b, c))
}

#[tactic(auto, unfolding(crate::specs::Ellipsoid::all_positive))]
fn all_positive(a: f64, b: f64, c: f64) -> bool
    ensures { result ≡ all_positive a b c }
{
    (0.0 < a) & (0.0 < b) & (0.0 < c)
}

// The demagnetising factors of a uniformly magnetised ellipsoid along its semi-axes a, b and c; or refused by 3,
// by 14 unless all are above 0, or by 15.
#[tactic(auto, unfolding(crate::specs::Ellipsoid::ellipsoid_factors))]
pub fn ellipsoid_factors(a: f64, b: f64, c: f64) -> Result<Vector, Refusal>
    ensures { result ≡ ellipsoid_factors a b c }
{
    let axes = Vector { x: a, y: b, z: c };
    if newtonian::vector_within_limits(axes) {
        if all_positive(a, b, c) {
            return factors_of(a, b, c);
        }
        return Err(Refusal::OutsideDomain);
    }
    Err(Refusal::OutOfLimits)
}

// ---- the magnetisation

// An equation of (I + χN) M = χH₀ + Mr, where e and n are rows of I and of N.
#[tactic(auto, unfolding(crate::specs::Magnetisation::equation))]
fn equation(chi: f64, e: Vector, n: Vector, h: f64, r: f64) -> Row
    ensures { result ≡ equation chi e n h r }
{
    Row {
        x: e.x + chi * n.x,
        y: e.y + chi * n.y,
        z: e.z + chi * n.z,
        right: chi * h + r,
    }
}

// The magnetisation without the tests of refusal 3.
#[tactic(auto, unfolding(crate::specs::Magnetisation::magnetisation_of))]
pub fn magnetisation_of(chi: f64, h0: Vector, remanent: Vector, n: Hessian) -> Vector
    ensures { result ≡ magnetisation_of chi h0 remanent n }
{
    let e = newtonian::diagonal(1.0);
    linalg::gauss(linalg::rows_of(
        equation(chi, e.x, n.x, h0.x, remanent.x),
        equation(chi, e.y, n.y, h0.y, remanent.y),
        equation(chi, e.z, n.z, h0.z, remanent.z),
    ))
}

#[tactic(auto, unfolding(crate::specs::Magnetisation::magnetisation_within_limits))]
fn magnetisation_within_limits(chi: f64, h0: Vector, remanent: Vector, n: Hessian) -> bool
    ensures { result ≡ magnetisation_within_limits chi h0 remanent n }
{
    both_within_limits(h0, remanent)
        & anomaly::hessian_within_limits(n)
        & doubles::within_limits(chi)
}

// The magnetisation (A/m) of a body of susceptibility chi (SI) and remanence `remanent` (A/m) in the field h0 (A/m),
// given its demagnetising tensor n; or refused by 3.
#[tactic(auto, unfolding(crate::specs::Magnetisation::magnetisation))]
pub fn magnetisation(chi: f64, h0: Vector, remanent: Vector, n: Hessian) -> Result<Vector, Refusal>
    ensures { result ≡ magnetisation chi h0 remanent n }
{
    if magnetisation_within_limits(chi, h0, remanent, n) {
        return Ok(magnetisation_of(chi, h0, remanent, n));
    }
    Err(Refusal::OutOfLimits)
}

// ---- the Königsberger ratio

// The ratio without the tests of refusal 3.
#[tactic(auto, unfolding(crate::specs::Magnetisation::koenigsberger_of))]
pub fn koenigsberger_of(remanent: Vector, chi: f64, h0: Vector) -> f64
    ensures { result ≡ koenigsberger_of remanent chi h0 }
{
    newtonian::norm(remanent) / (chi * newtonian::norm(h0))
}

// The ratio of remanent to induced magnetisation; or refused by 3.
#[tactic(auto, unfolding(crate::specs::Magnetisation::koenigsberger))]
pub fn koenigsberger(remanent: Vector, chi: f64, h0: Vector) -> Result<f64, Refusal>
    ensures { result ≡ koenigsberger remanent chi h0 }
{
    if both_within_limits(remanent, h0) & doubles::within_limits(chi) {
        return Ok(koenigsberger_of(remanent, chi, h0));
    }
    Err(Refusal::OutOfLimits)
}
