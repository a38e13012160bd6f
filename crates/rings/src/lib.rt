// The complete elliptic integrals, Bulirsch's cel, and the average of 1/r over a ring. Arguments stay as the papers write them, one by one; what the
// average works with is a `RingStation`.
#![tactic(auto)]

ghost use Rattle.std.specs.Prelude.{◌≡◌};
ghost use Rattle.rings.specs.Elliptic.{next_mean, mean_test, elliptic, complete_elliptic};
ghost use Rattle.rings.specs.Cel.{four_finite, cel};
ghost use Rattle.rings.specs.Ring.{far_squared, near_squared, ring_parameter, near_axis, off_axis, ∂ρ, ring_at, ring_within_limits, ring};

use refusals::Refusal;

// The Rust's loop ends after 64 rounds and refuses nothing.
const MAX_MEANS: u32 = 64;

// The arithmetic-geometric mean's a, b and c at round n, the sum of 2^(n-1) c^2, and 2^(n-1).
#[derive(Clone, Copy)]
pub struct Mean {
    pub a: f64,
    pub b: f64,
    pub c: f64,
    pub sum: f64,
    pub weight: f64,
}

// K(m) and E(m).
#[derive(Clone, Copy)]
pub struct Complete {
    pub k: f64,
    pub e: f64,
}

// The average of 1/r over a ring, and its derivatives by ρ and z.
#[derive(Clone, Copy)]
pub struct RingAverage {
    pub v: f64,
    pub drho: f64,
    pub dz: f64,
}

// ---- K and E

// One round of the mean.
#[tactic(auto, unfolding(crate::specs::Elliptic::next_mean))]
fn next_mean(s: Mean) -> Mean
    ensures { result ≡ next_mean s }
{
    let c = 0.5 * (s.a - s.b);
    let w = s.weight * 2.0;
    Mean {
        a: 0.5 * (s.a + s.b),
        b: roots::root(s.a * s.b),
        c,
        sum: s.sum + w * c * c,
        weight: w,
    }
}

#[tactic(auto, unfolding(crate::specs::Elliptic::mean_test))]
fn mean_test(s: Mean) -> bool
    ensures { result ≡ mean_test s }
{
    !(s.c <= doubles::EPSILON * s.a)
}

// K and E without the tests of their domain: what inner calls use.
pub fn elliptic(m: f64) -> Complete
    ensures { result ≡ elliptic m }
{
    let b = roots::root(1.0 - m);
    let c = roots::root(m);
    let first = Mean {
        a: 1.0,
        b,
        c,
        sum: 0.5 * m,
        weight: 0.5,
    };
    let s = carlson::repeat(MAX_MEANS, mean_test, next_mean, first);
    let k = doubles::FRAC_PI_2 / s.a;
    Complete {
        k,
        e: k * (1.0 - s.sum),
    }
}

// The complete elliptic integrals K(m) and E(m), for 0 ≤ m < 1: refused by 14 outside that domain.
#[tactic(auto, unfolding(crate::specs::Elliptic::complete_elliptic))]
pub fn complete_elliptic(m: f64) -> Result<Complete, Refusal>
    ensures { result ≡ complete_elliptic m }
{
    if (0.0 <= m) & (m < 1.0) {
        return Ok(elliptic(m));
    }
    Err(Refusal::OutsideDomain)
}

// ---- cel

#[tactic(auto, unfolding(crate::specs::Cel::four_finite))]
fn four_finite(kc: f64, p: f64, a: f64, b: f64) -> bool
    ensures { result ≡ four_finite kc p a b }
{
    doubles::is_finite(kc) & doubles::is_finite(p) & doubles::is_finite(a) & doubles::is_finite(b)
}

// Bulirsch's cel(k_c, p, a, b), for finite arguments and p > 0: refused by 14 outside that domain.
#[tactic(auto, unfolding(crate::specs::Cel::cel))]
pub fn cel(kc: f64, p: f64, a: f64, b: f64) -> Result<f64, Refusal>
    ensures { result ≡ cel kc p a b }
{
    if four_finite(kc, p, a, b) & (0.0 < p) {
        return Ok(special_bulirsch::cel_of(kc, p, a, b));
    }
    Err(Refusal::OutsideDomain)
}

// ---- the ring

// A ring and a station (ρ, z): s and d are the squares of the distances to the ring's farthest and nearest points,
// and m = 4Rρ/s.
#[derive(Clone, Copy)]
struct RingStation {
    radius: f64,
    rho: f64,
    z: f64,
    s: f64,
    d: f64,
    m: f64,
    ghost farthest: { s ≡ far_squared radius rho z },
    ghost nearest: { d ≡ near_squared radius rho z },
    ghost parameter: { m ≡ ring_parameter radius rho z },
}

impl RingStation {
    fn new(radius: f64, rho: f64, z: f64) -> Self
        ensures { (result.radius ≡ radius) × (result.rho ≡ rho) × (result.z ≡ z) }
    {
        let s = (radius + rho) * (radius + rho) + z * z;
        RingStation {
            radius,
            rho,
            z,
            s,
            d: (radius - rho) * (radius - rho) + z * z,
            m: 4.0 * radius * rho / s,
        }
    }

    // The derivative by ρ near the axis.
    #[tactic(auto, unfolding(crate::specs::Ring::near_axis))]
    fn near_axis(self) -> f64
        ensures { result ≡ near_axis self.radius self.rho self.z }
    {
        let RingStation { radius, rho, z, .. } = self;
        let r2 = radius * radius;
        let z2 = z * z;
        let u = r2 + z2;
        let w = roots::root(u);
        0.5 * rho * (r2 - 2.0 * z2) / (u * u * w)
            - rho * rho * rho / 16.0 * (-24.0 * z2 * z2 + 72.0 * z2 * r2 - 9.0 * r2 * r2)
                / (u * u * (u * u) * w)
    }

    // The derivative by ρ away from the axis.
    #[tactic(auto, unfolding(crate::specs::Ring::off_axis))]
    fn off_axis(self) -> f64
        ensures { result ≡ off_axis self.radius self.rho self.z }
    {
        let kc = roots::root(self.d / self.s); // √(1 - m), without the subtraction near the wire
        let w = roots::root(self.s);
        -2.0 / (doubles::PI * (self.s * w))
            * special_bulirsch::cel_of(kc, kc * kc, self.rho + self.radius, self.rho - self.radius)
    }

    // The derivative by ρ.
    fn by_rho(self) -> f64
        ensures { result ≡ ∂ρ self.radius self.rho self.z }
    {
        let RingStation { radius, rho, z, .. } = self;
        if rho == 0.0 {
            return 0.0;
        }
        if rho * rho < 9e-8 * (radius * radius + z * z) {
            return self.near_axis();
        }
        self.off_axis()
    }

    #[tactic(auto, unfolding(crate::specs::Ring::ring_at))]
    fn average(self) -> RingAverage
        ensures { result ≡ ring_at self.radius self.rho self.z }
    {
        let c = elliptic(self.m);
        let w = roots::root(self.s);
        RingAverage {
            v: 2.0 / doubles::PI * c.k / w,
            drho: self.by_rho(),
            dz: -2.0 / doubles::PI * self.z * c.e / (w * self.d),
        }
    }
}

#[tactic(auto, unfolding(crate::specs::Ring::ring_within_limits))]
fn ring_within_limits(radius: f64, rho: f64, z: f64) -> bool
    ensures { result ≡ ring_within_limits radius rho z }
{
    doubles::within_limits(radius) & doubles::within_limits(rho) & doubles::within_limits(z)
}

// The average of 1/r over a ring, seen from (ρ, z), and its gradient: refused by 3, and by 14 unless
// radius > 0, rho ≥ 0, and d > 0 and m < 1 as computed.
#[tactic(auto, unfolding(crate::specs::Ring::ring, crate::specs::Ring::ring_in_domain))]
pub fn ring(radius: f64, rho: f64, z: f64) -> Result<RingAverage, Refusal>
    ensures { result ≡ ring radius rho z }
{
    if ring_within_limits(radius, rho, z) {
        let at = RingStation::new(radius, rho, z);
        if (0.0 < radius) & (0.0 <= rho) & (0.0 < at.d) & (at.m < 1.0) {
            return Ok(at.average());
        }
        return Err(Refusal::OutsideDomain);
    }
    Err(Refusal::OutOfLimits)
}
