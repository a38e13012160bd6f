// The field of a rectangular prism by a Gauss-Legendre cubature of 1/r over it.
#![tactic(auto)]

ghost use Rattle.std.specs.Prelude.{◌≡◌, ◌≤◌};
ghost use Rattle.legendre.specs.GaussLegendre.{max_order};
ghost use Rattle.newtonian.specs.Fold.{Fold};
ghost use Rattle.prism_cubature.specs.Cubature.{half_widths, offset, point_weight, point, line, cubature};
ghost use Rattle.prism_cubature.specs.Rules.{IsRule};

use legendre::Rule;
use newtonian::{Newtonian, Vector};
use prism_corner_sums::Bounds;

#[tactic(auto, unfolding(crate::specs::Cubature::half_widths, newtonian::specs::Vectors::difference))]
pub fn half_widths(bounds: Bounds) -> Vector
    ensures { result ≡ half_widths bounds.lo bounds.hi }
{
    let sides = bounds.sides();
    Vector {
        x: 0.5 * sides.x,
        y: 0.5 * sides.y,
        z: 0.5 * sides.z,
    }
}

// One axis' numbers stay arguments (prism_corner_sums).
#[tactic(auto, unfolding(crate::specs::Cubature::offset))]
fn offset(p: f64, lo: f64, hi: f64, h: f64, u: f64) -> f64
    ensures { result ≡ offset p lo hi h u }
{
    0.5 * (lo + hi) + h * u - p
}

#[tactic(auto, unfolding(crate::specs::Cubature::point_weight))]
fn point_weight(w: f64, wz: f64, h: Vector) -> f64
    ensures { result ≡ point_weight w wz h }
{
    w * wz * h.x * h.y * h.z
}

// The three sums are alike in their loops alone: one generic loop over a rule would have to say in its contract what its closure adds, which a closure within a closure cannot.
// A rule has room for more nodes and weights than it has of them.

// The sums f with the line of points at x and y that the rule along z gives.
fn add_line(
    p: Vector,
    bounds: Bounds,
    rule: &Rule,
    w: f64,
    x: f64,
    y: f64,
    f: Newtonian,
) -> Newtonian
    requires { IsRule rule.now }
    ensures { result ≡ Fold rule.now.count (point p bounds.lo bounds.hi rule.now.count w x y) f }
{
    let h = half_widths(bounds);
    let mut sums = f;
    for (node, wz) in rule.nodes[..rule.count]
        .iter()
        .zip(&rule.weights[..rule.count])
    {
        let z = offset(p.z, bounds.lo.z, bounds.hi.z, h.z, *node);
        sums = newtonian::add_point(point_weight(w, *wz, h), Vector { x, y, z }, sums);
    }
    sums
}

// The sums f with the layer of lines at x that the rules along y and z give.
fn add_layer(
    p: Vector,
    bounds: Bounds,
    rule_y: &Rule,
    rule_z: &Rule,
    w: f64,
    x: f64,
    f: Newtonian,
) -> Newtonian
    requires along_y { IsRule rule_y.now }
    requires along_z { IsRule rule_z.now }
    ensures { result ≡ Fold rule_y.now.count (line p bounds.lo bounds.hi rule_y.now.count rule_z.now.count w x) f }
{
    let h = half_widths(bounds);
    let mut sums = f;
    for (node, wy) in rule_y.nodes[..rule_y.count]
        .iter()
        .zip(&rule_y.weights[..rule_y.count])
    {
        let y = offset(p.y, bounds.lo.y, bounds.hi.y, h.y, *node);
        sums = add_line(p, bounds, rule_z, w * *wy, x, y, sums);
    }
    sums
}

// The field of the prism at p, with l, m and n points along x, y and z.
pub fn cubature(p: Vector, bounds: Bounds, l: u32, m: u32, n: u32) -> Newtonian
    requires { (l ≤ max_order) × (m ≤ max_order) × (n ≤ max_order) }
    ensures { result ≡ cubature p bounds.lo bounds.hi l m n }
{
    let rule_x = Rule::of_order(l);
    let rule_y = Rule::of_order(m);
    let rule_z = Rule::of_order(n);
    let h = half_widths(bounds);
    let mut sums = newtonian::zero_field();
    for (node, w) in rule_x.nodes[..rule_x.count]
        .iter()
        .zip(&rule_x.weights[..rule_x.count])
    {
        let x = offset(p.x, bounds.lo.x, bounds.hi.x, h.x, *node);
        sums = add_layer(p, bounds, &rule_y, &rule_z, *w, x, sums);
    }
    sums
}
