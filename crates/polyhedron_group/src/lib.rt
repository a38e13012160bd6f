// Eight faces of a mesh side by side, from a face on: corner or side j of the face in lane k stands at 8 j + k. A loop that writes vectors counts that place, since a vector's
// three numbers stand at it in three arrays.
#![tactic(auto)]

ghost use Rattle.std.specs.Prelude.{◌≡◌, ℕ, ◌/◌, ◌%◌, ◌≤◌, ◌<◌};
ghost use Rattle.mesh_orders.specs.Edges.{max_faces};
ghost use Rattle.mesh.specs.Surface.{corner, face_count};
ghost use Rattle.lanes.specs.Lanes.{Lanes};
ghost use Rattle.polyhedron_faces.specs.Faces.{matrix_at, face_dyad, side_dyad};
ghost use Rattle.polyhedron_faces.specs.Parts.{square};
ghost use Rattle.polyhedron_faces.specs.Held.{Holds};
ghost use Rattle.polyhedron_group.specs.Group.{face_in, fewest, raw_normal};
ghost use Rattle.polyhedron_group.specs.Held.{HoldsGroup};

use mesh::surface::{FaceRange, Mesh};
use newtonian::{Hessian, cross, difference, dot};
use polyhedron_edge_terms::dyad;
use polyhedron_faces::{Group, Vectors};

// The face in lane k of the group that begins with the face first, in a mesh of n faces. Past the last face it is that one again, so
// that all groups have eight lanes.
fn face_in(first: usize, n: usize, k: usize) -> usize
    requires { (first < n) × (n ≤ max_faces) × (k < 8) }
    ensures { result ≡ face_in first n k }
{
    (first + k).min(n - 1)
}

// The corners of the faces.
fn corners(mesh: Mesh, first: usize, c: &mut Vectors<24>)
    requires { first < face_count mesh.faces.now }
    ensures { let f = mesh.entry.faces.now in
        Holds 24 (λ (i : ℕ). corner mesh.entry.verts.now f (face_in first (face_count f) (i % 8)) (i / 8)) c.new }
{
    let n = mesh.face_count();
    for i in 0..24usize {
        let f = face_in(first, n, i % 8);
        let v = mesh.corner(f, i / 8);
        c.set(i, v);
    }
}

// The normals of the faces, and their squares.
fn raw_normals(corners: &Vectors<24>, normals: &mut Vectors<8>, q: &mut [f64; 8])
    ensures vectors { Holds 8 (raw_normal corners.now.x corners.now.y corners.now.z) normals.new }
    ensures lanes { Lanes 8 (λ (k : ℕ). square (raw_normal corners.now.x corners.now.y corners.now.z k)) q.new }
{
    for k in 0..8usize {
        let a = corners.at(k);
        let b = corners.at(8 + k);
        let c = corners.at(16 + k);
        let n = cross(difference(b, a), difference(c, a));
        normals.set(k, n);
        q[k] = dot(n, n);
    }
}

// The dyads of the faces' normals.
fn face_dyads(normals: &Vectors<8>, d: &mut [Hessian; 8])
    ensures { (k : ℕ) → k < 8 → matrix_at d.new k ≡ face_dyad normals.now.x normals.now.y normals.now.z k }
{
    for (k, dk) in d.iter_mut().enumerate() {
        let n = normals.at(k);
        *dk = dyad(n, n);
    }
}

// The dyads of each face's normal with those of its sides.
fn side_dyads(normals: &Vectors<8>, side_normals: &Vectors<24>, d: &mut [Hessian; 24])
    ensures { (i : ℕ) → i < 24 → matrix_at d.new i ≡ side_dyad normals.now.x normals.now.y normals.now.z
        side_normals.now.x side_normals.now.y side_normals.now.z i }
{
    for (i, di) in d.iter_mut().enumerate() {
        let n = normals.at(i % 8);
        let m = side_normals.at(i);
        *di = dyad(n, m);
    }
}

// A group of fewer faces goes face by face: it would cost as much as a whole one.
pub const FEWEST: usize = 5;

// Eight faces from the range's first on, of which its own are to be added; past the last face that one again. Where they are too few nothing is made.
pub fn group(range: FaceRange, g: &mut Group)
    ensures { let r = range.entry in fewest ≤ r.n → HoldsGroup r.mesh.verts.now r.mesh.faces.now r.first g.new }
{
    if range.n < FEWEST {
        return;
    }
    let mut q = [0.0; 8];
    let mut l = [0.0; 8];
    corners(range.mesh, range.first, &mut g.corners);
    raw_normals(&g.corners, &mut g.normals, &mut q);
    lanes::roots(&q, &mut l);
    polyhedron_faces::units(&l, &mut g.normals);
    polyhedron_faces::sides(&g.corners, &g.normals, &mut g.side_normals, &mut g.lengths);
    side_dyads(&g.normals, &g.side_normals, &mut g.side_dyads);
    face_dyads(&g.normals, &mut g.face_dyads);
}
