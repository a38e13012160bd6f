// The centroid and the radius of a polyhedron, over its used vertices.
#![tactic(auto)]

ghost use Rattle.std.specs.Prelude.{◌≡◌, ℕ, ◌*◌, ◌<◌};
ghost use Rattle.lists.specs.Count.{Below};
ghost use Rattle.doubles.specs.Constants.{0·0};
ghost use Rattle.mesh_orders.specs.Edges.{max_faces};
ghost use Rattle.mesh_orders.specs.Order.{order_list};
ghost use Rattle.mesh.specs.Surface.{Body, vertex_count};
ghost use Rattle.polyhedron_centroid.specs.Centroid.{Steps, Takes, over_used, no_tally, add_vertex, tally_used, tally_mean, centroid, squared_distance, farther, radius};

use mesh::surface::Mesh;
use mesh_orders::order::OrderedFaces;
use newtonian::{Vector, difference};

// A mesh with the order list of its faces. It has no `Mesh` as a field: tried, the borrow check did not cover `polyhedron`, which would make both structs of lists
// that are lent apart.
#[derive(Clone, Copy)]
pub struct OrderedMesh<'a> {
    pub verts: &'a [f64],
    pub faces: &'a [u32],
    pub order: &'a [u32],
    pub ghost body: { Body verts.now faces.now },
    pub ghost sorted: { order.now ≡ order_list faces.now },
}

// How many vertices, and their sum.
#[derive(Clone, Copy)]
pub struct Tally {
    pub count: u32,
    pub sum: Vector,
}

#[tactic(auto, unfolding(crate::specs::Centroid::no_tally))]
fn no_tally() -> Tally
    ensures { result ≡ no_tally }
{
    let sum = Vector {
        x: -0.0,
        y: -0.0,
        z: -0.0,
    };
    Tally { count: 0, sum }
}

fn add_vertex(verts: &[f64], i: u32, t: Tally) -> Tally
    requires { (i < vertex_count verts.now) × (t.count < 3 * max_faces) }
    ensures { result ≡ add_vertex verts.now i t }
{
    let q = mesh::surface::vertex(verts, i);
    let sum = newtonian::add_vectors(t.sum, q);
    Tally {
        count: t.count + 1,
        sum,
    }
}

// Takes each used vertex, in ascending number, by step. The order list has them by number; next is one more than the last.
fn fold_used<A: Copy, F: Fn(u32, A) -> A>(ordered: OrderedFaces, first: A, step: F) -> A
    requires { Steps (F.pre step) (F.post step) ordered.faces.now first }
    ensures { (s : ℕ → A → A) (v : ℕ) → Takes (F.post step) s → Below ordered.entry.faces.now v → result ≡ over_used ordered.entry.faces.now v s first }
{
    let mut taken = first;
    let mut next = 0;
    for &u in ordered.order {
        let x = mesh_orders::edges::start(ordered.faces, u);
        if next <= x {
            taken = step(x, taken);
            next = x + 1;
        }
    }
    taken
}

fn tally_mean(t: Tally) -> Vector
    ensures { result ≡ tally_mean t }
{
    newtonian::over(t.sum, t.count as f64)
}

// The squared distance of a from c.
pub fn squared_distance(a: Vector, c: Vector) -> f64
    ensures { result ≡ squared_distance a c }
{
    let d = difference(a, c);
    -0.0 + d.x * d.x + d.y * d.y + d.z * d.z
}

// The bound on i is the number's own (mesh/src/surface.rt, `vertex`).
fn farther(c: Vector, verts: &[f64], i: u32, m: f64) -> f64
    requires { i < vertex_count verts.now }
    ensures { result ≡ farther c verts.now i m }
{
    doubles::max(m, squared_distance(mesh::surface::vertex(verts, i), c))
}

impl<'a> OrderedMesh<'a> {
    // The mesh alone.
    pub fn mesh(self) -> Mesh<'a>
        ensures { (result.verts.now ≡ self.entry.verts.now) × (result.faces.now ≡ self.entry.faces.now) }
    {
        Mesh {
            verts: self.verts,
            faces: self.faces,
        }
    }

    // The faces alone, in order.
    fn ordered_faces(self) -> OrderedFaces<'a>
        ensures { result.faces.now ≡ self.entry.faces.now }
    {
        OrderedFaces {
            faces: self.faces,
            order: self.order,
        }
    }

    fn tally_used(self) -> Tally
        ensures { result ≡ tally_used self.entry.verts.now self.entry.faces.now }
    {
        fold_used(
            self.ordered_faces(),
            no_tally(),
            |i, t| add_vertex(self.verts, i, t),
        )
    }

    // The mean of the used vertices.
    pub fn centroid(self) -> Vector
        ensures { result ≡ centroid self.entry.verts.now self.entry.faces.now }
    {
        tally_mean(self.tally_used())
    }

    // The greatest squared distance of a used vertex from c.
    fn farthest(self, c: Vector) -> f64
        ensures { let v = self.entry.verts.now in
            result ≡ over_used self.entry.faces.now (vertex_count v) (farther c v) 0·0 }
    {
        fold_used(
            self.ordered_faces(),
            0.0,
            |i, m| farther(c, self.verts, i, m),
        )
    }

    // The greatest distance of a used vertex from c.
    pub fn radius(self, c: Vector) -> f64
        ensures { result ≡ radius c self.entry.verts.now self.entry.faces.now }
    {
        roots::root(self.farthest(c))
    }
}

// A mesh's centroid and radius, which are the same for every station.
#[derive(Clone, Copy)]
pub struct Center {
    pub centroid: Vector,
    pub radius: f64,
}

impl Center {
    // Of a mesh.
    pub fn of(ordered: OrderedMesh) -> Self
        ensures { let v = ordered.entry.verts.now in let f = ordered.entry.faces.now in
            (result.centroid ≡ centroid v f) × (result.radius ≡ radius (centroid v f) v f) }
    {
        let centroid = ordered.centroid();
        Center {
            centroid,
            radius: ordered.radius(centroid),
        }
    }
}
