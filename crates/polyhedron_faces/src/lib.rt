// Eight faces side by side: corner or side j of the face in lane k stands at 8 j + k. A loop over lanes walks several arrays in step, by an
// index: of one body over fixed arrays the compiler makes packed instructions, and a chain of zipped iterators would be no plainer.
#![tactic(auto)]

ghost use Rattle.std.specs.Prelude.{◌≡◌, ℕ, ◌+◌, ◌%◌, ◌<◌, slice_set};
ghost use Rattle.newtonian.specs.Vectors.{norm, over};
ghost use Rattle.polyhedron_edge_terms.specs.Corners.{unit};
ghost use Rattle.lanes.specs.Lanes.{lane, Lanes};
ghost use Rattle.polyhedron_faces.specs.Faces.{vector_at};
ghost use Rattle.polyhedron_faces.specs.Parts.{edge_at, raw_side};
ghost use Rattle.polyhedron_faces.specs.Held.{HasLanes, Holds, HoldsSides, zero_vectors, zero_group};

use newtonian::{Hessian, Vector, cross, difference, dot};

// N vectors, each coordinate in an array of its own: loops over them run in packed instructions.
#[derive(Drop)]
pub struct Vectors<const N: usize> {
    pub x: [f64; N],
    pub y: [f64; N],
    pub z: [f64; N],
}

impl<const N: usize> Vectors<N> {
    pub fn zeros() -> Self
        ensures { result ≡ zero_vectors N }
    {
        Vectors {
            x: [0.0; N],
            y: [0.0; N],
            z: [0.0; N],
        }
    }

    pub fn at(&self, k: usize) -> Vector
        requires { k < N }
        ensures { result ≡ vector_at self.now.x self.now.y self.now.z k }
    {
        Vector {
            x: self.x[k],
            y: self.y[k],
            z: self.z[k],
        }
    }

    // The first clause is for other crates: a proof there does not know the lengths of the arrays.
    pub fn set(&mut self, k: usize, v: Vector)
        requires { k < N }
        ensures whole { HasLanes N self.new }
        ensures written { self.new ≡ record { x = slice_set self.old.x k v.x; y = slice_set self.old.y k v.y; z = slice_set self.old.z k v.z } }
    {
        self.x[k] = v.x;
        self.y[k] = v.y;
        self.z[k] = v.z;
    }
}

// The vectors over their lengths l.
pub fn units<const N: usize>(l: &[f64; N], v: &mut Vectors<N>)
    ensures { Holds N (λ (k : ℕ). over (vector_at v.old.x v.old.y v.old.z k) (lane l.now k)) v.new }
{
    for k in 0..N {
        let u = newtonian::over(v.at(k), l[k]);
        v.set(k, u);
    }
}

// Eight faces: their corners, their unit normals, their sides' unit normals and lengths, and the dyads of each face's normal with
// those of its sides and with itself, which serve all stations.
#[derive(Drop)]
pub struct Group {
    pub corners: Vectors<24>,
    pub normals: Vectors<8>,
    pub side_normals: Vectors<24>,
    pub lengths: [f64; 24],
    pub side_dyads: [Hessian; 24],
    pub face_dyads: [Hessian; 8],
}

impl Group {
    pub fn zeros() -> Self
        ensures { result ≡ zero_group }
    {
        let o = newtonian::diagonal(0.0);
        Group {
            corners: Vectors::zeros(),
            normals: Vectors::zeros(),
            side_normals: Vectors::zeros(),
            lengths: [0.0; 24],
            side_dyads: [o; 24],
            face_dyads: [o; 8],
        }
    }
}

// One side of each face, from the corners at `from` on to those at `to` on. The three sides' places differ, so that one loop over
// all of them would not step evenly.
fn raw_sides_8(
    corners: &Vectors<24>,
    normals: &Vectors<8>,
    from: usize,
    to: usize,
    m: &mut Vectors<24>,
    q: &mut [f64; 24],
    d: &mut [f64; 24],
)
    requires from_bound { (from < 24) × (from % 8 ≡ 0) × (to ≡ (from + 8) % 24) }
    requires raw_sides { HoldsSides from corners.now normals.now m.old q.old d.old }
    ensures { HoldsSides (from + 8) corners.now normals.now m.new q.new d.new }
{
    for k in 0..8usize {
        let i = from + k;
        let a = corners.at(i);
        let b = corners.at(to + k);
        let n = normals.at(k);
        let edge = difference(b, a);
        let s = cross(edge, n);
        m.set(i, s);
        q[i] = dot(s, s);
        d[i] = dot(edge, edge);
    }
}

// The normals of the sides in their faces' planes, the squares of these, and the squares of the sides themselves.
fn raw_sides(
    corners: &Vectors<24>,
    normals: &Vectors<8>,
    m: &mut Vectors<24>,
    q: &mut [f64; 24],
    d: &mut [f64; 24],
)
    ensures { HoldsSides 24 corners.now normals.now m.new q.new d.new }
{
    raw_sides_8(corners, normals, 0, 8, m, q, d);
    raw_sides_8(corners, normals, 8, 16, m, q, d);
    raw_sides_8(corners, normals, 16, 0, m, q, d);
}

// The sides of the faces: their unit normals and their lengths.
pub fn sides(corners: &Vectors<24>, normals: &Vectors<8>, m: &mut Vectors<24>, e: &mut [f64; 24])
    ensures vectors { Holds 24 (λ (i : ℕ). unit (raw_side corners.now.x corners.now.y corners.now.z
        normals.now.x normals.now.y normals.now.z i)) m.new }
    ensures lanes { Lanes 24 (λ (i : ℕ). norm (edge_at corners.now.x corners.now.y corners.now.z i)) e.new }
{
    let mut q = [0.0; 24];
    let mut d = [0.0; 24];
    let mut l = [0.0; 24];
    raw_sides(corners, normals, m, &mut q, &mut d);
    lanes::roots(&q, &mut l);
    lanes::roots(&d, e);
    units(&l, m);
}
