// What a station sees of eight faces side by side: the offsets of the corners, the logarithms of the sides and the solid
// angles. Corner j of face k, and the side from there to the face's next corner, stand at 8 j + k. A loop over lanes that writes
// two arrays goes by an index: of one body over fixed arrays the compiler makes packed instructions.
#![tactic(auto)]

ghost use Rattle.std.specs.Prelude.{◌≡◌, true, ℕ, IfSome};
ghost use Rattle.newtonian.specs.declared.Vector.{Vector};
ghost use Rattle.lanes.specs.Lanes.{Lanes};
ghost use Rattle.polyhedron_sight.specs.Sight.{seen_at, triple, denominator};
ghost use Rattle.polyhedron_sight.specs.Seen.{HoldsCorners, triple_of, denominator_of, angle_of, Sees, zero_seen};

use newtonian::{Vector, cross, difference, dot};
use polyhedron_edge_terms::Corner;
use polyhedron_faces::Vectors;
use polyhedron_logarithms::SeenCorners;

// What a station sees of eight faces.
#[derive(Drop)]
pub struct SeenFaces {
    pub corners: SeenCorners,
    pub logarithms: [f64; 24],
    pub angles: [f64; 8],
}

impl SeenFaces {
    pub fn zeros() -> Self
        ensures { result ≡ zero_seen }
    {
        SeenFaces {
            corners: SeenCorners::zeros(),
            logarithms: [0.0; 24],
            angles: [0.0; 8],
        }
    }
}

// Offsets and distances of the corners.
fn seen_24(p: Vector, corners: &Vectors<24>, c: &mut SeenCorners)
    ensures { HoldsCorners 24 (seen_at p corners.now.x corners.now.y corners.now.z) c.new }
{
    let mut q = [0.0; 24];
    for k in 0..24usize {
        let r = difference(corners.at(k), p);
        c.offsets.set(k, r);
        q[k] = dot(r, r);
    }
    lanes::roots(&q, &mut c.distances);
}

// The triple product of three offsets.
fn triple_of(a: Corner, b: Corner, c: Corner) -> f64
    ensures { result ≡ triple a b c }
{
    dot(a.r, cross(b.r, c.r))
}

// The denominator of the quotient whose arctangent is half the solid angle; the triple product is its numerator.
fn denominator_of(a: Corner, b: Corner, c: Corner) -> f64
    ensures { result ≡ denominator a b c }
{
    let bc = dot(b.r, c.r);
    let ca = dot(c.r, a.r);
    let ab = dot(a.r, b.r);
    a.l * b.l * c.l + a.l * bc + b.l * ca + c.l * ab
}

// Both numbers of that quotient, for each face.
fn quotients_8(corners: &SeenCorners, s: &mut [f64; 8], c: &mut [f64; 8])
    ensures lanes { Lanes 8 (triple_of corners.now) s.new }
    ensures lanes_2 { Lanes 8 (denominator_of corners.now) c.new }
{
    for k in 0..8usize {
        let a = corners.at(k);
        let b = corners.at(8 + k);
        let d = corners.at(16 + k);
        s[k] = triple_of(a, b, d);
        c[k] = denominator_of(a, b, d);
    }
}

// The solid angles of the faces; none at least where a triple product is zero.
fn angles_8(corners: &SeenCorners) -> Option<[f64; 8]>
    ensures { IfSome result (λ w. (n : ℕ → Vector) → Lanes 8 (angle_of corners.now n) w) }
{
    let mut s = [0.0; 8];
    let mut c = [0.0; 8];
    quotients_8(corners, &mut s, &mut c);
    let mut a = lanes_atan2::atan2(&s, &c)?;
    for ak in &mut a {
        *ak = 2.0 * *ak;
    }
    Some(a)
}

// What p sees of the faces with these corners and with sides of the lengths e, where the answer is true. It is false at least where a
// logarithm is not finite or a triple product is zero, as on an edge and in the plane of a face. It goes into the caller's s: as an
// Option of the struct, tried, a profile took 1.05 times the instructions.
pub fn sight(p: Vector, corners: &Vectors<24>, e: &[f64; 24], s: &mut SeenFaces) -> bool
    ensures { result ≡ true → Sees p corners.now e.now s.new }
{
    seen_24(p, corners, &mut s.corners);
    let lines = polyhedron_logarithms::logarithms_24(&s.corners, e);
    match (lines, angles_8(&s.corners)) {
        (Some(logarithms), Some(angles)) => {
            s.logarithms = logarithms;
            s.angles = angles;
            true
        }
        _ => false,
    }
}
