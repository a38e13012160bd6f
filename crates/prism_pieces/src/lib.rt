// The choice of the way in which the field of a rectangular prism, or of a piece of one, is taken at a station: by cubature
// outside it where that is affordable, else by corner sums, unless the prism is long and those are too rough: then crate
// prism takes it by the halves given here.
#![tactic(auto)]

ghost use Rattle.std.specs.Prelude.{◌≡◌};
ghost use Rattle.prism_pieces.specs.Choice.{squared_outside, distance, ceiling, axis_order, affordable, last_longest, first_longest, longest, shortest, along, with, corner_distance, farthest_corner, too_rough, bisected, piece_near, piece_outside, piece_of};

use lanes::pick;
use newtonian::{Newtonian, Vector};
use prism_corner_sums::Bounds;

// The rule for the longest axis where several are equally long.
#[derive(Clone, Copy, Debug, PartialEq, Eq)]
pub enum AxisRule {
    LastOfEquals,
    FirstOfEquals,
}

#[derive(Clone, Copy, Debug, PartialEq, Eq)]
pub enum Axis {
    X,
    Y,
    Z,
}

// A piece of a prism: its field, or, where it is to be bisected, its lower and its upper half, in this order.
#[derive(Clone, Copy)]
pub enum Piece {
    Whole(Newtonian),
    Halves(Bounds, Bounds),
}

// −ln ε, as ln has it.
const MINUS_LN_EPSILON: f64 = 36.04365338911715;

// The relative error that the corner sums may have.
const TOL: f64 = 1e-13;

// The largest order of a cubature on an axis, and its points in all.
const MAX_ORDER: u32 = 16;

const MAX_POINTS: u32 = 512;

// One axis' numbers stay arguments (prism_corner_sums).
#[tactic(auto, unfolding(crate::specs::Choice::squared_outside))]
fn squared_outside(p: f64, lo: f64, hi: f64) -> f64
    ensures { result ≡ squared_outside p lo hi }
{
    let d = doubles::max(doubles::max(lo - p, p - hi), 0.0);
    d * d
}

#[tactic(auto, unfolding(crate::specs::Choice::distance))]
fn distance(p: Vector, bounds: Bounds) -> f64
    ensures { result ≡ distance p bounds.lo bounds.hi }
{
    let Bounds { lo, hi } = bounds;
    let x = squared_outside(p.x, lo.x, hi.x);
    let y = squared_outside(p.y, lo.y, hi.y);
    let z = squared_outside(p.z, lo.z, hi.z);
    roots::root(-0.0 + x + y + z)
}

// x rounded up, but at least 1, and 17 for all that is above 16. Counted, since std's rounding up of a NaN or of a large number does not fit a u32; and by the number: as a
// range that is filtered and counted, tried, it took a prism near 1.05 times the instructions.
fn ceiling(x: f64) -> u32
    ensures { result ≡ ceiling x }
{
    let mut n = 1u32;
    for i in 0..MAX_ORDER {
        if ((i + 1) as f64) < x {
            n += 1;
        }
    }
    n
}

// The order that brings an axis of half-width h to round-off at the distance d.
fn axis_order(d: f64, h: f64) -> u32
    ensures { result ≡ axis_order d h }
{
    let rho = (d + roots::root(d * d + h * h)) / h;
    ceiling(MINUS_LN_EPSILON / (2.0 * carlson::ln(rho)))
}

fn affordable(l: u32, m: u32, n: u32) -> bool
    ensures { result ≡ affordable l m n }
{
    if l > MAX_ORDER || m > MAX_ORDER || n > MAX_ORDER {
        return false;
    }
    l * m * n <= MAX_POINTS
}

#[tactic(auto, unfolding(crate::specs::Choice::last_longest))]
fn last_longest(h: Vector) -> Axis
    ensures { result ≡ last_longest h }
{
    if h.y >= h.x {
        if h.z >= h.y { Axis::Z } else { Axis::Y }
    } else {
        if h.z >= h.x { Axis::Z } else { Axis::X }
    }
}

#[tactic(auto, unfolding(crate::specs::Choice::first_longest))]
fn first_longest(h: Vector) -> Axis
    ensures { result ≡ first_longest h }
{
    if h.x >= h.y {
        if h.x >= h.z { Axis::X } else { Axis::Z }
    } else {
        if h.y >= h.z { Axis::Y } else { Axis::Z }
    }
}

#[tactic(auto, unfolding(crate::specs::Choice::longest))]
fn longest(rule: AxisRule, h: Vector) -> Axis
    ensures { result ≡ longest rule h }
{
    match rule {
        AxisRule::LastOfEquals => last_longest(h),
        AxisRule::FirstOfEquals => first_longest(h),
    }
}

#[tactic(auto, unfolding(crate::specs::Choice::shortest))]
fn shortest(h: Vector) -> f64
    ensures { result ≡ shortest h }
{
    doubles::min(doubles::min(doubles::min(f64::INFINITY, h.x), h.y), h.z)
}

impl Axis {
    // The entry of v along it.
    #[tactic(auto, unfolding(crate::specs::Choice::along))]
    fn along(self, v: Vector) -> f64
        ensures { result ≡ along self v }
    {
        match self {
            Axis::X => v.x,
            Axis::Y => v.y,
            Axis::Z => v.z,
        }
    }

    // v with t along it.
    #[tactic(auto, unfolding(crate::specs::Choice::with))]
    fn with(self, t: f64, v: Vector) -> Vector
        ensures { result ≡ with self t v }
    {
        match self {
            Axis::X => Vector { x: t, ..v },
            Axis::Y => Vector { y: t, ..v },
            Axis::Z => Vector { z: t, ..v },
        }
    }
}

#[tactic(auto, unfolding(crate::specs::Choice::corner_distance))]
fn corner_distance(p: Vector, bounds: Bounds, k: u32) -> f64
    ensures { result ≡ corner_distance p bounds.lo bounds.hi k }
{
    let Bounds { lo, hi } = bounds;
    let x = pick(k % 2 == 1, hi.x, lo.x) - p.x;
    let y = pick(k / 2 % 2 == 1, hi.y, lo.y) - p.y;
    let z = pick(k / 4 % 2 == 1, hi.z, lo.z) - p.z;
    roots::root(-0.0 + x * x + y * y + z * z)
}

// By the corner's number, since its bits choose the coordinates.
fn farthest_corner(p: Vector, bounds: Bounds) -> f64
    ensures { result ≡ farthest_corner p bounds.lo bounds.hi }
{
    let mut m = 0.0;
    for k in 0..8u32 {
        m = doubles::max(m, corner_distance(p, bounds, k));
    }
    m
}

// Whether the corner sums' error is above TOL of the potential v; r is the farthest corner's distance.
#[tactic(auto, unfolding(crate::specs::Choice::too_rough))]
fn too_rough(r: f64, v: f64) -> bool
    ensures { result ≡ too_rough r v }
{
    doubles::EPSILON * r * r * (doubles::FRAC_PI_2 + doubles::abs(carlson::ln(r)))
        > TOL * doubles::abs(v)
}

// The two halves across an axis; nothing is searched.
#[tactic(auto, unfolding(crate::specs::Choice::bisected))]
fn bisected(a: Axis, bounds: Bounds) -> Piece
    ensures { result ≡ bisected a bounds.lo bounds.hi }
{
    let mid = 0.5 * (a.along(bounds.lo) + a.along(bounds.hi));
    let lower = Bounds {
        hi: a.with(mid, bounds.hi),
        ..bounds
    };
    let upper = Bounds {
        lo: a.with(mid, bounds.lo),
        ..bounds
    };
    Piece::Halves(lower, upper)
}

// p is outside, and the cubature not affordable.
#[tactic(auto, unfolding(crate::specs::Choice::piece_near))]
fn piece_near(rule: AxisRule, p: Vector, bounds: Bounds, h: Vector) -> Piece
    ensures { result ≡ piece_near rule p bounds.lo bounds.hi h }
{
    let s = prism_corner_lanes::corner_sums(p, bounds);
    let a = longest(rule, h);
    if a.along(h) > 2.0 * shortest(h) && too_rough(farthest_corner(p, bounds), s.potential) {
        return bisected(a, bounds);
    }
    Piece::Whole(s)
}

// p is outside, at the distance d.
#[tactic(auto, using(crate::proofs::Orders::orders), unfolding(crate::specs::Choice::piece_outside))]
fn piece_outside(rule: AxisRule, d: f64, p: Vector, bounds: Bounds) -> Piece
    ensures { result ≡ piece_outside rule d p bounds.lo bounds.hi }
{
    let h = prism_cubature::half_widths(bounds);
    let l = axis_order(d, h.x);
    let m = axis_order(d, h.y);
    let n = axis_order(d, h.z);
    if affordable(l, m, n) {
        return Piece::Whole(prism_cubature::cubature(p, bounds, l, m, n));
    }
    piece_near(rule, p, bounds, h)
}

// The field of the prism as a whole, or its halves.
#[tactic(auto, unfolding(crate::specs::Choice::piece_of))]
pub fn piece_of(rule: AxisRule, p: Vector, bounds: Bounds) -> Piece
    ensures { result ≡ piece_of rule p bounds.lo bounds.hi }
{
    let d = distance(p, bounds);
    if d > 0.0 {
        return piece_outside(rule, d, p, bounds);
    }
    Piece::Whole(prism_corner_lanes::corner_sums(p, bounds))
}
