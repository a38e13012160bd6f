// The field of a polyhedron near it, by the edge and face sums of Werner & Scheeres (1997): a range of faces, face by face, and what the sums of all faces end in.
#![tactic(auto)]

ghost use Rattle.std.specs.Prelude.{◌≡◌, List, ℕ, ◌<◌, Float};
ghost use Rattle.mesh.specs.Surface.{face_count};
ghost use Rattle.polyhedron_edge_terms.specs.EdgeTerms.{logarithm};
ghost use Rattle.polyhedron_edge_terms.specs.declared.Corner.{Corner};
ghost use Rattle.polyhedron_edge_face_sums.specs.EdgeFaceSums.{Sums, no_faces, triangle_of, add_side, add_triangle, sums_of, edge_face_sums};
ghost use Rattle.polyhedron_edge_face_sums.specs.Carried.{Carries, CarriesIn, Adds};

use mesh::surface::{FaceRange, Mesh};
use newtonian::{Newtonian, Vector, dot};
use polyhedron_edge_terms::{Corner, Side};
use polyhedron_on_edge::{BLOCK, EDGE_LIMIT, Edges};
use refusals::Refusal;

// What of a face does not depend on the station: its corners, its unit normal and its sides.
#[derive(Clone, Copy)]
pub struct Triangle {
    pub a: Vector,
    pub b: Vector,
    pub c: Vector,
    pub normal: Vector,
    pub ab: Side,
    pub bc: Side,
    pub ca: Side,
}

// Face k. That it is one of the mesh's is asked of the number, here and in the mesh's methods: a number with its mesh, in a struct, would be made for each face.
#[tactic(auto, unfolding(crate::specs::EdgeFaceSums::triangle_of))]
fn triangle_of(mesh: Mesh, k: usize) -> Triangle
    requires { k < face_count mesh.faces.now }
    ensures { result ≡ triangle_of mesh.entry.verts.now mesh.entry.faces.now k }
{
    let a = mesh.corner(k, 0);
    let b = mesh.corner(k, 1);
    let c = mesh.corner(k, 2);
    let i = mesh.faces[3 * k];
    let j = mesh.faces[3 * k + 1];
    let l = mesh.faces[3 * k + 2];
    let normal = polyhedron_edge_terms::unit(mesh.normal(k));
    Triangle {
        a,
        b,
        c,
        normal,
        ab: polyhedron_edge_terms::side_of(normal, a, b, i, j),
        bc: polyhedron_edge_terms::side_of(normal, b, c, j, l),
        ca: polyhedron_edge_terms::side_of(normal, c, a, l, i),
    }
}

// The field at a station of number i, of which all faces are added: to field, and to the first count edges of a block. Their keys may lie elsewhere.
pub fn near_field(
    i: u32,
    field: Newtonian,
    dyads: &[f64; BLOCK],
    count: usize,
) -> Result<Newtonian, Refusal>
    ensures { (p : Vector) (v : List Float) (f : List ℕ) (keys : List ℕ) → CarriesIn (sums_of p v f) keys dyads.now field count → result ≡ edge_face_sums i p v f }
{
    if EDGE_LIMIT < count {
        return Err(Refusal::TooManyEdges(i));
    }
    let t = polyhedron_on_edge::add_infinite(field.hessian, dyads, count);
    Ok(Newtonian {
        potential: field.potential,
        gradient: field.gradient,
        hessian: polyhedron_edge_terms::symmetric(t),
    })
}

// What the faces so far add up to at a station: the field, and the edges that gave a logarithm that is not finite.
#[derive(Clone, Copy)]
pub struct Running {
    pub field: Newtonian,
    pub edges: Edges,
}

impl Running {
    // Before the first face.
    pub fn new() -> Running
        ensures { Carries no_faces result }
    {
        Running {
            field: newtonian::zero_field(),
            edges: Edges::new(),
        }
    }

    // The side e of a face with the normal n, with its logarithm l and the offset r of the corner where it begins.
    fn add_side(&mut self, n: Vector, e: Side, l: f64, r: Vector)
        ensures { (a b : Corner) (s : Sums) → l ≡ logarithm a b e.length → r ≡ a.r → Carries s self.old → Carries (add_side n e a b s) self.new }
    {
        let m = e.normal;
        if doubles::is_finite(l) {
            self.field = polyhedron_edge_terms::add_edge_terms(n, m, l, r, self.field);
            return;
        }
        let key = polyhedron_on_edge::edge_key(e.from, e.to);
        self.edges.add(key, polyhedron_edge_terms::dyad(n, m));
    }

    // The face t and its three sides, seen from p.
    fn add_triangle(&mut self, p: Vector, t: Triangle)
        ensures { (s : Sums) → Carries s self.old → Carries (add_triangle p t s) self.new }
    {
        let n = t.normal;
        let a = polyhedron_edge_terms::seen(p, t.a);
        let b = polyhedron_edge_terms::seen(p, t.b);
        let c = polyhedron_edge_terms::seen(p, t.c);
        let rho = dot(n, a.r);
        let omega = polyhedron_edge_terms::solid_angle(n, a, b, c);
        self.field = polyhedron_edge_terms::add_face_terms(n, rho, omega, self.field);
        let l0 = polyhedron_edge_terms::logarithm(a, b, t.ab.length);
        self.add_side(n, t.ab, l0, a.r);
        let l1 = polyhedron_edge_terms::logarithm(b, c, t.bc.length);
        self.add_side(n, t.bc, l1, b.r);
        let l2 = polyhedron_edge_terms::logarithm(c, a, t.ca.length);
        self.add_side(n, t.ca, l2, c.r);
    }

    // The faces of the range, by their numbers, which the definition and the mesh's methods take. One function for all callers: compiled for each of them, `add_triangle` is slower.
    pub fn add_triangles(&mut self, p: Vector, range: FaceRange)
        ensures { let r = range.entry in Adds p r.mesh.verts.now r.mesh.faces.now r.first r.n self.old self.new }
    {
        for k in range.first..range.first + range.n {
            self.add_triangle(p, triangle_of(range.mesh, k));
        }
    }

    // The field at a station of number i, of which all faces are added.
    pub fn near_field(&self, i: u32) -> Result<Newtonian, Refusal>
        ensures { (p : Vector) (v : List Float) (f : List ℕ) → Carries (sums_of p v f) self.now → result ≡ edge_face_sums i p v f }
    {
        near_field(i, self.field, self.edges.block(), self.edges.count)
    }
}
