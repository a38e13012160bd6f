// Scratch for the check of a mesh: a counter for each vertex and a list of the edge uses, made here on the stack, in three sizes. To clear the largest takes longer than to check a
// small mesh. `check_edges` lends it to `mesh_orders::order`, which sorts the edge uses by counting, and then to `mesh::scan::open_edge`, which sorts them once more by the other end
// (`mesh_orders::order::pass`): these are the mates of an accepted mesh.
ghost use Rattle.std.specs.Prelude.{◌≡◌, ◌&&◌, ◌*◌, ◌≤◌, leb, length};
ghost use Rattle.mesh_orders.specs.Edges.{max_vertices, max_faces};
ghost use Rattle.mesh.specs.Surface.{vertex_count};
ghost use Rattle.mesh_check.specs.CheckedMates.{MatesRoom, EdgesChecked};

use mesh::surface::Mesh;
use mesh_orders::edges::{MAX_FACES, MAX_VERTICES};
use refusals::Refusal;

// The edge uses of 512 faces.
const SMALL_ROOM: usize = 3 * 512;

// The edge uses of 4,096 faces.
const MEDIUM_ROOM: usize = 3 * 4096;

// The edge uses of 32,768 faces, which is every mesh.
const LARGE_ROOM: usize = 3 * MAX_FACES;

// The causes 5 to 8, in a room for V vertices and U edge uses. The room for mates, none or four bytes to a use, is asked for by
// `check_surface_with_mates`, `by_size`, `check_in` and `check_edges`, each of which calls the next, and of the order list by `put_mates`. The first is public and takes lists, the
// last has no mesh; for the three between, a struct of mesh and mates would be made at the one call of `by_size` and taken apart in `check_edges`. Each room keeps a stack frame of its own: in one frame every mesh would touch the pages of the largest room.
#[inline(never)]
fn check_in<const V: usize, const U: usize>(
    mesh: Mesh,
    work: &mut [u32],
    mates: &mut [u8],
) -> Result<f64, Refusal>
    requires { let n = length mesh.faces.now in
        (length work.old ≡ n) × MatesRoom n (length mates.old) × (vertex_count mesh.verts.now ≤ V) × (n ≤ U) × (V ≤ 3 * max_faces) × (U ≤ 3 * max_faces) }
    ensures { EdgesChecked mesh.entry.verts.now mesh.entry.faces.now mates.old result work.new mates.new }
{
    let v = mesh.verts.len() / 3;
    let n = mesh.faces.len();
    let mut counts = [0; V];
    let mut spare = [0; U];
    crate::check_edges(mesh, &mut counts[..v], &mut spare[..n], work, mates)
}

// Whether a room for n vertices and n edge uses holds the mesh.
fn fits(mesh: Mesh, n: usize) -> bool
    ensures { result ≡ (leb (vertex_count mesh.entry.verts.now) n && leb (length mesh.entry.faces.now) n) }
{
    mesh.verts.len() / 3 <= n && mesh.faces.len() <= n
}

// The causes 5 to 8, in the smallest room that holds the mesh. Work is the order list afterwards, and mates, where it is not empty and no cause holds, the mates.
pub(crate) fn by_size(mesh: Mesh, work: &mut [u32], mates: &mut [u8]) -> Result<f64, Refusal>
    requires { let n = length mesh.faces.now in
        (length work.old ≡ n) × MatesRoom n (length mates.old) × (vertex_count mesh.verts.now ≤ max_vertices) }
    ensures { EdgesChecked mesh.entry.verts.now mesh.entry.faces.now mates.old result work.new mates.new }
{
    if fits(mesh, SMALL_ROOM) {
        check_in::<SMALL_ROOM, SMALL_ROOM>(mesh, work, mates)
    } else if fits(mesh, MEDIUM_ROOM) {
        check_in::<MEDIUM_ROOM, MEDIUM_ROOM>(mesh, work, mates)
    } else {
        check_in::<MAX_VERTICES, LARGE_ROOM>(mesh, work, mates)
    }
}
