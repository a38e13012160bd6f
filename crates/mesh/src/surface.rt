// Normals and volume, in the Rust's order of roundings.
ghost use Rattle.std.specs.Prelude.{◌≡◌, ◌+◌, ◌*◌, ◌<◌, ◌≤◌, length};
ghost use Rattle.mesh.specs.Surface.{Body, vertex_count, face_count, vertex, corner, normal, is_zero, face_volume, volume};
ghost use Rattle.mesh.specs.Check.{faces_cause, solid_of};

use newtonian::{Vector, cross, difference, dot};
use refusals::Refusal;

// A mesh that is a body: three coordinates to a vertex, three vertex numbers to a face, each of a vertex that is there.
#[derive(Clone, Copy)]
pub struct Mesh<'a> {
    pub verts: &'a [f64],
    pub faces: &'a [u32],
    pub ghost body: { Body verts.now faces.now },
}

// The n faces of a mesh from first on. That they are eight at most is asked for where it is needed, and is no fact of the range: the sums of a station, near and far, never
// asked for it.
#[derive(Clone, Copy)]
pub struct FaceRange<'a> {
    pub mesh: Mesh<'a>,
    pub first: usize,
    pub n: usize,
    pub ghost within: { first + n ≤ face_count mesh.faces.now },
}

// The vertex with number i, of any list that has it, vertices or stations. The bound on i is the number's own: a number with its list, in a struct, would be made for each vertex.
pub fn vertex(verts: &[f64], i: u32) -> Vector
    requires { i < vertex_count verts.now }
    ensures { result ≡ vertex verts.now i }
{
    let k = 3 * (i as usize);
    Vector {
        x: verts[k],
        y: verts[k + 1],
        z: verts[k + 2],
    }
}

// Whether each part is +0 or −0.
pub fn is_zero(n: Vector) -> bool
    ensures { result ≡ is_zero n }
{
    n.x == 0.0 && n.y == 0.0 && n.z == 0.0
}

impl<'a> Mesh<'a> {
    // How many faces it has.
    pub fn face_count(self) -> usize
        ensures { result ≡ face_count self.entry.faces.now }
    {
        self.faces.len() / 3
    }

    // Corner j of face k.
    pub fn corner(self, k: usize, j: usize) -> Vector
        requires { 3 * k + j < length self.faces.now }
        ensures { result ≡ corner self.entry.verts.now self.entry.faces.now k j }
    {
        vertex(self.verts, self.faces[3 * k + j])
    }

    // The normal of face k.
    #[tactic(auto, unfolding(crate::specs::Surface::normal))]
    pub fn normal(self, k: usize) -> Vector
        requires { k < face_count self.faces.now }
        ensures { result ≡ normal self.entry.verts.now self.entry.faces.now k }
    {
        let a = self.corner(k, 0);
        let b = self.corner(k, 1);
        let c = self.corner(k, 2);
        cross(difference(b, a), difference(c, a))
    }

    // What face k adds to the volume.
    #[tactic(auto, unfolding(crate::specs::Surface::face_volume))]
    fn face_volume(self, k: usize) -> f64
        requires { k < face_count self.faces.now }
        ensures { result ≡ face_volume self.entry.verts.now self.entry.faces.now k }
    {
        dot(self.corner(k, 0), self.normal(k)) / 6.0
    }

    // The causes 7 and 8, or else the volume. By the face's number, which refusal 7 names.
    pub fn check_faces(self) -> Result<f64, Refusal>
        ensures { let m = self.entry in
            result ≡ solid_of (faces_cause m.verts.now m.faces.now) (volume m.verts.now m.faces.now) }
    {
        let mut sum = 0.0;
        for k in 0..self.face_count() {
            if is_zero(self.normal(k)) {
                return Err(Refusal::Degenerate(k as u32));
            }
            sum += self.face_volume(k);
        }
        if 0.0 < sum {
            return Ok(sum);
        }
        Err(Refusal::Inverted)
    }
}
