// The magnetic anomaly of a uniformly magnetised infinite cylinder. What describes it stays arguments, as C passes them: the formulas take the axis's unit vector in
// place of the axis, and the rest apart.
#![tactic(auto)]

ghost use Rattle.std.specs.Prelude.{◌≡◌};
ghost use Rattle.anomaly_cylinder.specs.Cylinder.{times_vector, minus_times, projector, cylinder_inside, line_row, cylinder_outside, cylinder_hessian, cylinder_of, cylinder_within_limits, cylinder};

use anomaly::{body_of, both_within_limits};
use newtonian::{Hessian, Vector, diagonal, over};
use refusals::Refusal;

// k v
#[tactic(auto, unfolding(crate::specs::Cylinder::times_vector))]
fn times_vector(k: f64, v: Vector) -> Vector
    ensures { result ≡ times_vector k v }
{
    Vector {
        x: k * v.x,
        y: k * v.y,
        z: k * v.z,
    }
}

// v - w u
#[tactic(auto, unfolding(crate::specs::Cylinder::minus_times))]
fn minus_times(v: Vector, w: f64, u: Vector) -> Vector
    ensures { result ≡ minus_times v w u }
{
    Vector {
        x: v.x - w * u.x,
        y: v.y - w * u.y,
        z: v.z - w * u.z,
    }
}

// The projector across the axis of unit vector u, I - u uᵀ.
#[tactic(auto, unfolding(crate::specs::Cylinder::projector))]
fn projector(u: Vector) -> Hessian
    ensures { result ≡ projector u }
{
    let e = diagonal(1.0);
    Hessian {
        x: minus_times(e.x, u.x, u),
        y: minus_times(e.y, u.y, u),
        z: minus_times(e.z, u.z, u),
    }
}

#[tactic(auto, unfolding(crate::specs::Cylinder::cylinder_inside))]
fn cylinder_inside(across: Hessian) -> Hessian
    ensures { result ≡ cylinder_inside across }
{
    let k = -2.0 * doubles::PI;
    Hessian {
        x: times_vector(k, across.x),
        y: times_vector(k, across.y),
        z: times_vector(k, across.z),
    }
}

// A row of k (2 ρ ρᵀ - r² P), where e is the row of the projector P.
#[tactic(auto, unfolding(crate::specs::Cylinder::line_row))]
fn line_row(k: f64, rhoi: f64, rho: Vector, r2: f64, e: Vector) -> Vector
    ensures { result ≡ line_row k rhoi rho r2 e }
{
    Vector {
        x: k * (2.0 * rhoi * rho.x - r2 * e.x),
        y: k * (2.0 * rhoi * rho.y - r2 * e.y),
        z: k * (2.0 * rhoi * rho.z - r2 * e.z),
    }
}

#[tactic(auto, unfolding(crate::specs::Cylinder::cylinder_outside))]
fn cylinder_outside(a: f64, rho: Vector, r2: f64, across: Hessian) -> Hessian
    ensures { result ≡ cylinder_outside a rho r2 across }
{
    let k = 2.0 * doubles::PI * a * a / (r2 * r2);
    Hessian {
        x: line_row(k, rho.x, rho, r2, across.x),
        y: line_row(k, rho.y, rho, r2, across.y),
        z: line_row(k, rho.z, rho, r2, across.z),
    }
}

#[tactic(auto, unfolding(crate::specs::Cylinder::cylinder_hessian))]
fn cylinder_hessian(a: f64, rho: Vector, across: Hessian) -> Hessian
    ensures { result ≡ cylinder_hessian a rho across }
{
    let r2 = newtonian::dot(rho, rho);
    if r2 < a * a {
        return cylinder_inside(across);
    }
    cylinder_outside(a, rho, r2, across)
}

// The cylinder's field for a value mu of μ₀/4π and the axis's unit vector u. What it is given is not tested.
#[tactic(auto, unfolding(crate::specs::Cylinder::cylinder_of))]
pub fn cylinder_of(mu: f64, p: Vector, point: Vector, u: Vector, a: f64, m: Vector) -> Vector
    ensures { result ≡ cylinder_of mu p point u a m }
{
    let d = newtonian::difference(p, point);
    let rho = minus_times(d, newtonian::dot(d, u), u);
    body_of(mu, cylinder_hessian(a, rho, projector(u)), m)
}

#[tactic(auto, unfolding(crate::specs::Cylinder::cylinder_within_limits))]
fn cylinder_within_limits(p: Vector, point: Vector, axis: Vector, a: f64, m: Vector) -> bool
    ensures { result ≡ cylinder_within_limits p point axis a m }
{
    both_within_limits(p, point) & both_within_limits(axis, m) & doubles::within_limits(a)
}

// The field (T) at p of an infinite cylinder of radius a (m) along `axis` through `point`, magnetised uniformly at
// m (A/m); or refused by 3, or by 14 unless a > 0 and the axis's length, as computed, is above 0.
#[tactic(auto, unfolding(crate::specs::Cylinder::cylinder))]
pub fn cylinder(
    p: Vector,
    point: Vector,
    axis: Vector,
    a: f64,
    m: Vector,
) -> Result<Vector, Refusal>
    ensures { result ≡ cylinder p point axis a m }
{
    if cylinder_within_limits(p, point, axis, a, m) {
        let n = newtonian::norm(axis);
        if (0.0 < a) & (0.0 < n) {
            return Ok(cylinder_of(anomaly::C_M, p, point, over(axis, n), a, m));
        }
        return Err(Refusal::OutsideDomain);
    }
    Err(Refusal::OutOfLimits)
}
