// `check_mesh`: is a list of triangles a closed, consistently wound, outward-facing surface? Its definition, `check_mesh`, with the causes of refusal is in mesh/specs/Check; that
// they say what document 01 says, in mesh_laws/specs/Laws and EarlyLaws; the parts that try a cause each, in mesh/src and mesh_orders/src.
// The lists are lent, and come to meet their conditions one after another, so each function asks for those that it needs; once the faces' corners are tested, vertices and
// faces are a `Mesh`, and its faces with their order list an `OrderedFaces`.
#![tactic(auto)]

mod mates;
mod room;

ghost use Rattle.std.specs.Prelude.{◌≡◌, length};
ghost use Rattle.mesh_orders.specs.Order.{order_list};
ghost use Rattle.mesh.specs.Surface.{vertex_count, volume};
ghost use Rattle.mesh.specs.Check.{order_cause, surface_cause, mesh_cause, solid_of, check_mesh, work_after};
ghost use Rattle.mesh.specs.Accepted.{Counted};
ghost use Rattle.mesh_check.specs.CheckOrder.{check_order};
ghost use Rattle.mesh_check.specs.CheckedMates.{HoldsMates, MatesRoom, mates_after, EdgesChecked};

use mesh::surface::Mesh;
use mesh_orders::order::OrderedFaces;
use refusals::Refusal;

// The causes 5 to 8, by the order list. counts has a counter for each vertex and spare an entry for each edge use; where none of the causes holds, spare has the mates in the order
// list's order afterwards.
fn check_order(
    mesh: Mesh,
    order: &[u32],
    counts: &mut [u32],
    spare: &mut [u32],
) -> Result<f64, Refusal>
    requires { (order.now ≡ order_list mesh.faces.now) × (length counts.old ≡ vertex_count mesh.verts.now) × (length spare.old ≡ length mesh.faces.now) }
    ensures value { result ≡ check_order mesh.entry.verts.now mesh.entry.faces.now }
    ensures holds_mates { let m = mesh.entry in
        order_cause m.verts.now m.faces.now (order_list m.faces.now) ≡ Ok tt → HoldsMates m.faces.now spare.new }
{
    let ordered = OrderedFaces {
        faces: mesh.faces,
        order,
    };
    mesh::scan::flipped_edge(ordered)?;
    mesh::scan::open_edge(ordered, counts, spare)?;
    mesh.check_faces()
}

// The same, and writes the order list and, where no cause holds, the mates.
pub(crate) fn check_edges(
    mesh: Mesh,
    counts: &mut [u32],
    spare: &mut [u32],
    work: &mut [u32],
    mates: &mut [u8],
) -> Result<f64, Refusal>
    requires { let n = length mesh.faces.now in
        (length counts.old ≡ vertex_count mesh.verts.now) × (length spare.old ≡ n) × (length work.old ≡ n) × MatesRoom n (length mates.old) }
    ensures { EdgesChecked mesh.entry.verts.now mesh.entry.faces.now mates.old result work.new mates.new }
{
    mesh_orders::order::order(mesh.faces, counts, spare, work);
    let volume = check_order(mesh, work, counts, spare)?;
    mates::put_mates(work, spare, mates);
    Ok(volume)
}

// The causes 4 to 8, for callers that have tried 1, 2, 12 and 3. Work starts with the order list afterwards, but after 4. Mates is empty or has four bytes to each edge use;
// where no cause holds, it has the mates afterwards.
pub fn check_surface_with_mates(
    verts: &[f64],
    faces: &[u32],
    work: &mut [u32],
    mates: &mut [u8],
) -> Result<f64, Refusal>
    requires { Counted verts.now faces.now (length work.old) × MatesRoom (length faces.now) (length mates.old) }
    ensures value { result ≡ solid_of (surface_cause verts.now faces.now) (volume verts.now faces.now) }
    ensures work_after { work.new ≡ work_after (surface_cause verts.now faces.now) faces.now work.old }
    ensures mates_after { mates.new ≡ mates_after (surface_cause verts.now faces.now) faces.now mates.old }
{
    mesh::scan::no_such_vertex(verts.len() / 3, faces)?;
    let n = faces.len();
    room::by_size(Mesh { verts, faces }, &mut work[..n], mates)
}

// The same without the mates.
pub fn check_surface(verts: &[f64], faces: &[u32], work: &mut [u32]) -> Result<f64, Refusal>
    requires { Counted verts.now faces.now (length work.old) }
    ensures value { result ≡ solid_of (surface_cause verts.now faces.now) (volume verts.now faces.now) }
    ensures work_after { work.new ≡ work_after (surface_cause verts.now faces.now) faces.now work.old }
{
    let mut none = [0; 1];
    check_surface_with_mates(verts, faces, work, &mut none[..0])
}

// Checks that the faces form a closed, consistently wound, outward-facing surface, and returns its volume. verts has three coordinates to a vertex, faces three vertex
// numbers to a face, and work, which is lent, three entries or more to a face: the order list afterwards.
pub fn check_mesh(verts: &[f64], faces: &[u32], work: &mut [u32]) -> Result<f64, Refusal>
    ensures result_value { result ≡ check_mesh verts.now faces.now (length work.old) }
    ensures work_after { work.new ≡ work_after (mesh_cause verts.now faces.now (length work.old)) faces.now work.old }
{
    mesh::count_cause(verts, faces, work.len())?;
    mesh::scan::out_of_limits(verts)?;
    check_surface(verts, faces, work)
}
