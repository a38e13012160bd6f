// The field of a rectangular prism in closed form, by the corner sums of Nagy, Papp & Benedek (2000). One axis' numbers and a corner's x, y, z and r stay arguments, as
// the formulas have them: each is used for the three axes in turn.
#![tactic(auto)]

ghost use Rattle.std.specs.Prelude.{◌≡◌};
ghost use Rattle.newtonian.specs.Vectors.{difference};
ghost use Rattle.prism_corner_sums.specs.CornerSums.{coordinate, corner_logarithm, corner_angle, corner_at, sign, zero_or_times, potential_term, gradient_term, add_corner_terms, corner_sums};

use newtonian::{Hessian, Newtonian, Vector};

// A box along the axes, by its least and its greatest corner.
#[derive(Clone, Copy)]
pub struct Bounds {
    pub lo: Vector,
    pub hi: Vector,
}

impl Bounds {
    // How long the sides are along x, y and z.
    pub fn sides(self) -> Vector
        ensures { result ≡ difference self.hi self.lo }
    {
        newtonian::difference(self.hi, self.lo)
    }
}

// A corner less the station, with the logarithm and the angle of each axis.
#[derive(Clone, Copy)]
pub struct PrismCorner {
    pub at: Vector,
    pub log: Vector,
    pub angle: Vector,
}

// Of an upper or a lower face. In `corner_at` a bit of the corner's number says which, so that two functions, or closures, would be chosen by that same bit at each of the three
// axes; prism_corner_lanes, which takes all corners at once, asks for either side in turn. −0 at an upper face makes a station on the face take the limit from outside.
#[tactic(auto, unfolding(crate::specs::CornerSums::coordinate))]
pub fn coordinate(upper: bool, p: f64, lo: f64, hi: f64) -> f64
    ensures { result ≡ coordinate upper p lo hi }
{
    if upper {
        let x = hi - p;
        if x == 0.0 { -0.0 } else { x }
    } else {
        lo - p
    }
}

// ln(x + r) without cancellation.
#[tactic(auto, unfolding(crate::specs::CornerSums::corner_logarithm))]
fn corner_logarithm(p: f64, hi: f64, x: f64, y: f64, z: f64, r: f64) -> f64
    ensures { result ≡ corner_logarithm p hi x y z r }
{
    if p >= hi {
        return -carlson::ln(r - x);
    }
    if x >= 0.0 {
        return carlson::ln(x + r);
    }
    carlson::ln((y * y + z * z) / (r - x))
}

#[tactic(auto, unfolding(crate::specs::CornerSums::corner_angle))]
fn corner_angle(x: f64, y: f64, z: f64, r: f64) -> f64
    ensures { result ≡ corner_angle x y z r }
{
    let yz = y * z;
    if yz == 0.0 {
        0.0
    } else {
        carlson::atan(yz / (x * r))
    }
}

// The three axes by hand: each formula takes x, y and z in turn, which a loop over the axes would have to pick by number.
#[tactic(auto, unfolding(crate::specs::CornerSums::corner_at))]
fn corner_at(p: Vector, bounds: Bounds, k: u32) -> PrismCorner
    ensures { result ≡ corner_at p bounds.lo bounds.hi k }
{
    let Bounds { lo, hi } = bounds;
    let x = coordinate(k % 2 == 1, p.x, lo.x, hi.x);
    let y = coordinate(k / 2 % 2 == 1, p.y, lo.y, hi.y);
    let z = coordinate(k / 4 % 2 == 1, p.z, lo.z, hi.z);
    let r = roots::root(x * x + y * y + z * z);
    PrismCorner {
        at: Vector { x, y, z },
        log: Vector {
            x: corner_logarithm(p.x, hi.x, x, y, z, r),
            y: corner_logarithm(p.y, hi.y, y, z, x, r),
            z: corner_logarithm(p.z, hi.z, z, x, y, r),
        },
        angle: Vector {
            x: corner_angle(x, y, z, r),
            y: corner_angle(y, z, x, r),
            z: corner_angle(z, x, y, r),
        },
    }
}

#[tactic(auto, unfolding(crate::specs::CornerSums::sign))]
pub fn sign(k: u32) -> f64
    ensures { result ≡ sign k }
{
    if (k % 2 + k / 2 % 2 + k / 4 % 2) % 2 == 1 {
        1.0
    } else {
        -1.0
    }
}

// A zero coefficient times the infinite logarithm on an edge counts as zero.
#[tactic(auto, unfolding(crate::specs::CornerSums::zero_or_times))]
fn zero_or_times(k: f64, v: f64) -> f64
    ensures { result ≡ zero_or_times k v }
{
    if k == 0.0 { 0.0 } else { k * v }
}

#[tactic(auto, unfolding(crate::specs::CornerSums::potential_term))]
fn potential_term(x: f64, y: f64, z: f64, lx: f64, ax: f64) -> f64
    ensures { result ≡ potential_term x y z lx ax }
{
    zero_or_times(y * z, lx) - zero_or_times(0.5 * x * x, ax)
}

#[tactic(auto, unfolding(crate::specs::CornerSums::gradient_term))]
fn gradient_term(x: f64, y: f64, z: f64, ly: f64, lz: f64, ax: f64) -> f64
    ensures { result ≡ gradient_term x y z ly lz ax }
{
    zero_or_times(y, lz) + zero_or_times(z, ly) - zero_or_times(x, ax)
}

#[tactic(auto, unfolding(crate::specs::CornerSums::add_corner_terms))]
pub fn add_corner_terms(s: f64, c: PrismCorner, f: Newtonian) -> Newtonian
    ensures { result ≡ add_corner_terms s c f }
{
    let at = c.at;
    let l = c.log;
    let a = c.angle;
    let yz = f.hessian.y.z + s * l.x;
    let zx = f.hessian.z.x + s * l.y;
    let xy = f.hessian.x.y + s * l.z;
    Newtonian {
        potential: f.potential
            + s * potential_term(at.x, at.y, at.z, l.x, a.x)
            + s * potential_term(at.y, at.z, at.x, l.y, a.y)
            + s * potential_term(at.z, at.x, at.y, l.z, a.z),
        gradient: Vector {
            x: f.gradient.x - s * gradient_term(at.x, at.y, at.z, l.y, l.z, a.x),
            y: f.gradient.y - s * gradient_term(at.y, at.z, at.x, l.z, l.x, a.y),
            z: f.gradient.z - s * gradient_term(at.z, at.x, at.y, l.x, l.y, a.z),
        },
        hessian: Hessian {
            x: Vector {
                x: f.hessian.x.x - s * a.x,
                y: xy,
                z: zx,
            },
            y: Vector {
                x: xy,
                y: f.hessian.y.y - s * a.y,
                z: yz,
            },
            z: Vector {
                x: zx,
                y: yz,
                z: f.hessian.z.z - s * a.z,
            },
        },
    }
}

// The field of the prism at p. By the corner's number, since its bits choose the coordinates and the sign.
pub fn corner_sums(p: Vector, bounds: Bounds) -> Newtonian
    ensures { result ≡ corner_sums p bounds.lo bounds.hi }
{
    let mut f = newtonian::zero_field();
    for k in 0..8u32 {
        f = add_corner_terms(sign(k), corner_at(p, bounds, k), f);
    }
    f
}
