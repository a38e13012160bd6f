// The logarithms of the sides of eight faces side by side, as a station sees them. Corner j of face k, and the side from there
// to the face's next corner, stand at 8 j + k. The loop over lanes walks several arrays in step, by an index: of one body over
// fixed arrays the compiler makes packed instructions.
#![tactic(auto)]

ghost use Rattle.std.specs.Prelude.{◌≡◌, true, ℕ, ◌+◌, ◌%◌, ◌<◌, IfSome};
ghost use Rattle.std.specs.Float.Ieee.Scale.{finite};
ghost use Rattle.lanes.specs.Lanes.{lane, Lanes};
ghost use Rattle.polyhedron_logarithms.specs.Sides.{ratio};
ghost use Rattle.polyhedron_logarithms.specs.Seen.{corner_of, logarithm_of, HoldsRatios, zero_corners};

use newtonian::{cross, dot};
use polyhedron_edge_terms::Corner;
use polyhedron_faces::Vectors;

// The corners of the faces as a station sees them: their offsets and their distances.
#[derive(Drop)]
pub struct SeenCorners {
    pub offsets: Vectors<24>,
    pub distances: [f64; 24],
}

impl SeenCorners {
    pub fn zeros() -> Self
        ensures { result ≡ zero_corners }
    {
        SeenCorners {
            offsets: Vectors::zeros(),
            distances: [0.0; 24],
        }
    }

    pub fn at(&self, i: usize) -> Corner
        requires { i < 24 }
        ensures { result ≡ corner_of self.now i }
    {
        Corner {
            r: self.offsets.at(i),
            l: self.distances[i],
        }
    }
}

// What the logarithm of the edge of length e from a to b is of; the three stay arguments, as in polyhedron_edge_terms. Both forms of the gap, and then one: no branch.
fn ratio_of(a: Corner, b: Corner, e: f64) -> f64
    ensures { result ≡ ratio a b e }
{
    let sum = a.l + b.l;
    let ab = dot(a.r, b.r);
    let c = cross(a.r, b.r);
    let g = 2.0 * dot(c, c) / ((a.l * b.l - ab) * (sum + e));
    (sum + e) / lanes::pick(ab < 0.0, g, sum - e)
}

// The same for one side of each face, from the corners at `from` on to those at `to` on: no % in an index.
fn ratios_8(c: &SeenCorners, e: &[f64; 24], from: usize, to: usize, out: &mut [f64; 24])
    requires from_bound { (from < 24) × (from % 8 ≡ 0) × (to ≡ (from + 8) % 24) }
    requires ratios { HoldsRatios from c.now e.now out.old }
    ensures { HoldsRatios (from + 8) c.now e.now out.new }
{
    for k in 0..8usize {
        let i = from + k;
        let d = e[i];
        let a = c.at(i);
        out[i] = ratio_of(a, c.at(to + k), d);
    }
}

// The same for each side.
fn ratios_24(c: &SeenCorners, e: &[f64; 24], out: &mut [f64; 24])
    ensures { HoldsRatios 24 c.now e.now out.new }
{
    ratios_8(c, e, 0, 8, out);
    ratios_8(c, e, 8, 16, out);
    ratios_8(c, e, 16, 0, out);
}

// Whether each number is finite. All are looked at: no branch.
fn finite_24(w: &[f64; 24]) -> bool
    ensures { result ≡ true → (k : ℕ) → k < 24 → finite (lane w.now k) ≡ true }
{
    w.iter().fold(true, |all, v| all & doubles::is_finite(*v))
}

// The logarithms of the sides, if they are finite.
pub fn logarithms_24(c: &SeenCorners, e: &[f64; 24]) -> Option<[f64; 24]>
    ensures { IfSome result (λ l. Lanes 24 (logarithm_of c.now e.now) l
        × ((k : ℕ) → k < 24 → finite (lane l k) ≡ true)) }
{
    let mut q = [0.0; 24];
    ratios_24(c, e, &mut q);
    let l = lanes_ln::ln(&q)?;
    if !finite_24(&l) {
        return None;
    }
    Some(l)
}
