// What the far field of a polyhedron, a cubature of 1/r over the signed tetrahedra from an apex to each face, needs of the
// body alone: the mapped rule, a face's tetrahedron, Duffy's map and the weights. No station comes in, so that all share them.
#![tactic(auto)]

ghost use Rattle.std.specs.Prelude.{◌≡◌};
ghost use Rattle.polyhedron_tetrahedra.specs.Tetrahedra.{over_face, duffy_axis, duffy, line_weight};

use newtonian::{Vector, cross, difference, dot};

mod rule;

pub use rule::{MappedRule, POINTS};

// A tetrahedron ABCD: the sides from A to B, B to C and C to D, and six times its signed volume.
#[derive(Clone, Copy)]
pub struct Tetrahedron {
    pub ab: Vector,
    pub bc: Vector,
    pub cd: Vector,
    pub vol6: f64,
}

// The tetrahedron from the apex a to the face with the corners b, c and d.
#[tactic(auto, unfolding(crate::specs::Tetrahedra::over_face))]
pub fn over_face(a: Vector, b: Vector, c: Vector, d: Vector) -> Tetrahedron
    ensures { result ≡ over_face a b c d }
{
    let ab = difference(b, a);
    let bc = difference(c, b);
    let cd = difference(d, c);
    let vol6 = dot(ab, cross(difference(c, a), difference(d, a)));
    Tetrahedron { ab, bc, cd, vol6 }
}

#[tactic(auto, unfolding(crate::specs::Tetrahedra::duffy_axis))]
fn duffy_axis(a: f64, ab: f64, bc: f64, cd: f64, u: f64, v: f64, t: f64) -> f64
    ensures { result ≡ duffy_axis a ab bc cd u v t }
{
    a + u * (ab + v * (bc + t * cd))
}

// The point of the tetrahedron s at u, v and t.
#[tactic(auto, unfolding(crate::specs::Tetrahedra::duffy))]
pub fn duffy(a: Vector, s: Tetrahedron, u: f64, v: f64, t: f64) -> Vector
    ensures { result ≡ duffy a s u v t }
{
    Vector {
        x: duffy_axis(a.x, s.ab.x, s.bc.x, s.cd.x, u, v, t),
        y: duffy_axis(a.y, s.ab.y, s.bc.y, s.cd.y, u, v, t),
        z: duffy_axis(a.z, s.ab.z, s.bc.z, s.cd.z, u, v, t),
    }
}

// The weight that the points of a line have in common.
#[tactic(auto, unfolding(crate::specs::Tetrahedra::line_weight))]
pub fn line_weight(vol6: f64, u: f64, v: f64, wu: f64, wv: f64) -> f64
    ensures { result ≡ line_weight vol6 u v wu wv }
{
    vol6 * u * u * v * wu * wv
}
