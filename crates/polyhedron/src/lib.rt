// The field of a closed polyhedron of triangles.
#![tactic(auto)]

ghost use Rattle.std.specs.Prelude.{◌≡◌, length};
ghost use Rattle.mesh.specs.Check.{work_after};
ghost use Rattle.polyhedron.specs.Polyhedron.{is_far, polyhedron_from, polyhedron_at, given_cause, polyhedron_cause, polyhedron};

use mesh::surface::Mesh;
use newtonian::{Newtonian, Vector};
use polyhedron_centroid::{Center, OrderedMesh};
use refusals::Refusal;

// Beyond so many radii from the centroid the tetrahedra take over.
const POLYHEDRON_FAR: f64 = 5.0;

// Whether the tetrahedra take over at p.
pub fn is_far(p: Vector, center: Center) -> bool
    ensures { result ≡ is_far p center.centroid center.radius }
{
    let squared = polyhedron_centroid::squared_distance(p, center.centroid);
    roots::root(squared) > POLYHEDRON_FAR * center.radius
}

// The field of a checked mesh at the station p of number i, with its center. What it is given is not tested.
pub fn polyhedron_at(i: u32, p: Vector, center: Center, mesh: Mesh) -> Result<Newtonian, Refusal>
    ensures { result ≡ polyhedron_from i p center.centroid center.radius mesh.entry.verts.now mesh.entry.faces.now }
{
    if is_far(p, center) {
        return Ok(polyhedron_far_one::tetrahedra(p, center.centroid, mesh));
    }
    polyhedron_near::edge_face_sums(i, p, mesh)
}

// The causes 1, 2, 12 and 3.
#[tactic(auto, unfolding(crate::specs::Polyhedron::given_cause))]
fn given_cause(p: Vector, verts: &[f64], faces: &[u32], room: usize) -> Result<(), Refusal>
    ensures { result ≡ given_cause p verts.now faces.now room }
{
    mesh::count_cause(verts, faces, room)?;
    mesh::scan::out_of_limits(verts)?;
    if newtonian::vector_within_limits(p) {
        return Ok(());
    }
    Err(Refusal::OutOfLimits)
}

// The field of a checked mesh at a single point.
fn single_point(p: Vector, ordered: OrderedMesh) -> Result<Newtonian, Refusal>
    ensures { result ≡ polyhedron_at 0 p ordered.entry.verts.now ordered.entry.faces.now }
{
    polyhedron_at(0, p, Center::of(ordered), ordered.mesh())
}

// The field of a closed polyhedron at a station, at unit Gρ; or refused by 1, 2, 12, 3, 4, 5, 6, 7, 8 or 11. verts has
// three coordinates to a vertex, faces three vertex numbers to a face, counter-clockwise seen from outside, and work,
// which is lent, three entries or more to a face: the order list afterwards.
pub fn polyhedron(
    station: Vector,
    verts: &[f64],
    faces: &[u32],
    work: &mut [u32],
) -> Result<Newtonian, Refusal>
    ensures result_value { result ≡ polyhedron station verts.now faces.now (length work.old) }
    ensures work_after { work.new ≡ work_after (polyhedron_cause station verts.now faces.now (length work.old)) faces.now work.old }
{
    given_cause(station, verts, faces, work.len())?;
    mesh_check::check_surface(verts, faces, work)?;
    let order = &work[..faces.len()];
    let ordered = OrderedMesh {
        verts,
        faces,
        order,
    };
    single_point(station, ordered)
}
