// The magnetic anomaly of any uniformly magnetised body, from its gravity by Poisson's relation, and the total-field
// anomaly that it makes.
#![tactic(auto)]

ghost use Rattle.std.specs.Prelude.{◌≡◌};
ghost use Rattle.anomaly.specs.Body.{trace, row_times, body_of, body};
ghost use Rattle.anomaly.specs.Limits.{both_within_limits, hessian_within_limits};
ghost use Rattle.anomaly.specs.TotalField.{total_field_of, total_field};

use newtonian::{Hessian, Vector, dot, norm, vector_within_limits};
use refusals::Refusal;

// μ₀/4π in T m/A.
pub const C_M: f64 = 1e-7;

// ---- refusal 3's test of two vectors, and of nine numbers

#[tactic(auto, unfolding(crate::specs::Limits::both_within_limits))]
pub fn both_within_limits(a: Vector, b: Vector) -> bool
    ensures { result ≡ both_within_limits a b }
{
    vector_within_limits(a) & vector_within_limits(b)
}

#[tactic(auto, unfolding(crate::specs::Limits::hessian_within_limits))]
pub fn hessian_within_limits(hessian: Hessian) -> bool
    ensures { result ≡ hessian_within_limits hessian }
{
    vector_within_limits(hessian.x)
        & vector_within_limits(hessian.y)
        & vector_within_limits(hessian.z)
}

// ---- any body

#[tactic(auto, unfolding(crate::specs::Body::trace))]
fn trace(t: Hessian) -> f64
    ensures { result ≡ trace t }
{
    t.x.x + t.y.y + t.z.z
}

// A row of the Hessian times m, summed from -0.
#[tactic(auto, unfolding(crate::specs::Body::row_times))]
fn row_times(t: Vector, m: Vector) -> f64
    ensures { result ≡ row_times t m }
{
    -0.0 + t.x * m.x + t.y * m.y + t.z * m.z
}

// The field for a value mu of μ₀/4π. What it is given is not tested.
#[tactic(auto, unfolding(crate::specs::Body::body_of))]
pub fn body_of(mu: f64, hessian: Hessian, magnetisation: Vector) -> Vector
    ensures { result ≡ body_of mu hessian magnetisation }
{
    let m = magnetisation;
    let t = trace(hessian);
    Vector {
        x: mu * (row_times(hessian.x, m) - t * m.x),
        y: mu * (row_times(hessian.y, m) - t * m.y),
        z: mu * (row_times(hessian.z, m) - t * m.z),
    }
}

// The field (T) of a body magnetised uniformly (A/m), from the Hessian of its unit-density
// potential at a point, inside or outside; or refused by 3.
#[tactic(auto, unfolding(crate::specs::Body::body))]
pub fn body(hessian: Hessian, magnetisation: Vector) -> Result<Vector, Refusal>
    ensures { result ≡ body hessian magnetisation }
{
    if hessian_within_limits(hessian) & vector_within_limits(magnetisation) {
        return Ok(body_of(C_M, hessian, magnetisation));
    }
    Err(Refusal::OutOfLimits)
}

// ---- the total-field anomaly

// Without the tests of refusal 3.
#[tactic(auto, unfolding(crate::specs::TotalField::total_field_of))]
pub fn total_field_of(ambient: Vector, anomaly: Vector) -> f64
    ensures { result ≡ total_field_of ambient anomaly }
{
    let sum = newtonian::add_vectors(ambient, anomaly);
    (2.0 * dot(ambient, anomaly) + dot(anomaly, anomaly)) / (norm(sum) + norm(ambient))
}

// The total-field anomaly (T): by how much an anomaly changes what a total-field magnetometer reads in the ambient field; or refused by 3.
#[tactic(auto, unfolding(crate::specs::TotalField::total_field))]
pub fn total_field(ambient: Vector, anomaly: Vector) -> Result<f64, Refusal>
    ensures { result ≡ total_field ambient anomaly }
{
    if both_within_limits(ambient, anomaly) {
        return Ok(total_field_of(ambient, anomaly));
    }
    Err(Refusal::OutOfLimits)
}
