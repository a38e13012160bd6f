// The magnetic anomaly of a uniformly magnetised sphere. Its centre, radius and magnetisation stay arguments, as C passes them: the formulas take them apart at once.
#![tactic(auto)]

ghost use Rattle.std.specs.Prelude.{◌≡◌};
ghost use Rattle.anomaly_sphere.specs.Sphere.{dipole_row, sphere_outside, sphere_hessian, sphere_of, sphere_within_limits, sphere};

use anomaly::{body_of, both_within_limits};
use newtonian::{Hessian, Vector, diagonal};
use refusals::Refusal;

// A row of k (3 d dᵀ - r² I), where e is the row of r² I. The cylinder's rows multiply by r² here, in another order of
// roundings, so they have a function of their own.
#[tactic(auto, unfolding(crate::specs::Sphere::dipole_row))]
fn dipole_row(k: f64, di: f64, d: Vector, e: Vector) -> Vector
    ensures { result ≡ dipole_row k di d e }
{
    Vector {
        x: k * (3.0 * di * d.x - e.x),
        y: k * (3.0 * di * d.y - e.y),
        z: k * (3.0 * di * d.z - e.z),
    }
}

#[tactic(auto, unfolding(crate::specs::Sphere::sphere_outside))]
fn sphere_outside(a: f64, d: Vector, r2: f64) -> Hessian
    ensures { result ≡ sphere_outside a d r2 }
{
    let k = 4.0 * doubles::PI * (a * a * a) / (3.0 * r2 * r2 * roots::root(r2));
    let e = diagonal(r2);
    Hessian {
        x: dipole_row(k, d.x, d, e.x),
        y: dipole_row(k, d.y, d, e.y),
        z: dipole_row(k, d.z, d, e.z),
    }
}

#[tactic(auto, unfolding(crate::specs::Sphere::sphere_hessian))]
fn sphere_hessian(a: f64, d: Vector) -> Hessian
    ensures { result ≡ sphere_hessian a d }
{
    let r2 = newtonian::dot(d, d);
    if r2 < a * a {
        return diagonal(-4.0 * doubles::PI / 3.0);
    }
    sphere_outside(a, d, r2)
}

// The sphere's field for a value mu of μ₀/4π. What it is given is not tested.
#[tactic(auto, unfolding(crate::specs::Sphere::sphere_of))]
pub fn sphere_of(mu: f64, p: Vector, centre: Vector, a: f64, m: Vector) -> Vector
    ensures { result ≡ sphere_of mu p centre a m }
{
    body_of(mu, sphere_hessian(a, newtonian::difference(p, centre)), m)
}

#[tactic(auto, unfolding(crate::specs::Sphere::sphere_within_limits))]
fn sphere_within_limits(p: Vector, centre: Vector, a: f64, m: Vector) -> bool
    ensures { result ≡ sphere_within_limits p centre a m }
{
    both_within_limits(p, centre) & newtonian::vector_within_limits(m) & doubles::within_limits(a)
}

// The field (T) at p of a sphere of radius a (m), magnetised uniformly at m (A/m); or refused by 3, or by 14
// unless a > 0.
#[tactic(auto, unfolding(crate::specs::Sphere::sphere))]
pub fn sphere(p: Vector, centre: Vector, a: f64, m: Vector) -> Result<Vector, Refusal>
    ensures { result ≡ sphere p centre a m }
{
    if sphere_within_limits(p, centre, a, m) {
        if 0.0 < a {
            return Ok(sphere_of(anomaly::C_M, p, centre, a, m));
        }
        return Err(Refusal::OutsideDomain);
    }
    Err(Refusal::OutOfLimits)
}
