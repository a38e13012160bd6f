// Eight faces side by side, added in order to the field of a station. Corner or side j of face k stands at 8 j + k. That the dyads are made of the normals is asked for, and is
// no fact of `Group`: a group is filled part by part, and it comes true with the last; a struct that lends a filled group with that fact, as `HeldFaces` of polyhedron_group_sums, the one caller, does, would be made for
// the one call of `add_block`.
#![tactic(auto)]

ghost use Rattle.std.specs.Prelude.{◌≡◌, ℕ, ◌<◌, ◌≤◌, IfSome};
ghost use Rattle.newtonian.specs.Fold.{Fold};
ghost use Rattle.polyhedron_edge_terms.specs.EdgeTerms.{dyad};
ghost use Rattle.polyhedron_edge_face_sums.specs.declared.Triangle.{Triangle};
ghost use Rattle.polyhedron_faces.specs.Faces.{vector_at, matrix_at};
ghost use Rattle.polyhedron_faces.specs.Held.{HoldsFaces, HoldsDyads};
ghost use Rattle.polyhedron_eight_faces.specs.EightFaces.{add_whole, Clear};
ghost use Rattle.polyhedron_eight_faces.specs.Held.{add_side_of, add_face_of};

use newtonian::{Newtonian, Vector};
use polyhedron_faces::Group;
use polyhedron_sight::SeenFaces;

// The field f with side i, of a face with the normal n.
fn add_side(n: Vector, g: &Group, s: &SeenFaces, i: usize, f: Newtonian) -> Newtonian
    requires { let m = g.now.side_normals in (i < 24) × (matrix_at g.now.side_dyads i ≡ dyad n (vector_at m.x m.y m.z i)) }
    ensures { result ≡ add_side_of g.now s.now n i f }
{
    let l = s.logarithms[i];
    let m = g.side_normals.at(i);
    let r = s.corners.offsets.at(i);
    polyhedron_edge_terms::add_edge_dyad(g.side_dyads[i], n, m, l, r, f)
}

// The field f with face k and its sides.
fn add_face(g: &Group, s: &SeenFaces, k: usize, f: Newtonian) -> Newtonian
    requires k_bound { k < 8 }
    requires dyads { HoldsDyads g.now }
    ensures { result ≡ add_face_of g.now s.now k f }
{
    let w = s.angles[k];
    let n = g.normals.at(k);
    let rho = newtonian::dot(n, s.corners.offsets.at(k));
    let face = polyhedron_edge_terms::add_face_dyad(g.face_dyads[k], n, rho, w, f);
    let ab = add_side(n, g, s, k, face);
    let bc = add_side(n, g, s, 8 + k, ab);
    add_side(n, g, s, 16 + k, bc)
}

// The field f with the first `count` faces, in order. By the number: what belongs to a face stands in several arrays, that of its
// sides at three places.
fn add_faces(g: &Group, s: &SeenFaces, count: usize, f: Newtonian) -> Newtonian
    requires count_bound { count ≤ 8 }
    requires dyads { HoldsDyads g.now }
    ensures { result ≡ Fold count (add_face_of g.now s.now) f }
{
    let mut sums = f;
    for k in 0..count {
        sums = add_face(g, s, k, sums);
    }
    sums
}

// The field f with the first `count` of eight faces, seen from p, if the logarithms are finite and p lies in no face's plane.
pub fn add_block(p: Vector, g: &Group, count: usize, f: Newtonian) -> Option<Newtonian>
    requires count_bound { count ≤ 8 }
    requires dyads { HoldsDyads g.now }
    ensures { IfSome result (λ r. (t : ℕ → Triangle) → HoldsFaces t g.now →
        (r ≡ Fold count (λ k. add_whole p (t k)) f) × ((k : ℕ) → k < 8 → Clear p (t k))) }
{
    let mut s = SeenFaces::zeros();
    if !polyhedron_sight::sight(p, &g.corners, &g.lengths, &mut s) {
        return None;
    }
    Some(add_faces(g, &s, count, f))
}
