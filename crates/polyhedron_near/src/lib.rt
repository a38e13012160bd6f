// The near field of one station, by the edge and face sums of Werner & Scheeres (1997): the faces by groups of eight.
#![tactic(auto)]

ghost use Rattle.std.specs.Prelude.{◌≡◌, ◌≤◌};
ghost use Rattle.polyhedron_edge_face_sums.specs.EdgeFaceSums.{edge_face_sums};
ghost use Rattle.polyhedron_edge_face_sums.specs.Carried.{Adds};

use mesh::surface::{FaceRange, Mesh};
use newtonian::{Newtonian, Vector};
use polyhedron_edge_face_sums::Running;
use polyhedron_faces::Group;
use polyhedron_group::FEWEST;
use polyhedron_group_sums::HeldFaces;
use refusals::Refusal;

// The group of the range's faces, made and added to the sums of the station at p. Eight faces at most is asked for here and below, and is no fact of a range (mesh/src/surface.rt).
fn add_new_group(run: &mut Running, p: Vector, range: FaceRange)
    requires { range.n ≤ 8 }
    ensures { let r = range.entry in Adds p r.mesh.verts.now r.mesh.faces.now r.first r.n run.old run.new }
{
    let mut g = Group::zeros();
    polyhedron_group::group(range, &mut g);
    polyhedron_group_sums::add_group(run, p, &HeldFaces { range, group: &g });
}

// The faces of the range, added to the sums of the station at p. Where they are too few for lanes no room for a group is cleared.
fn add_faces(run: &mut Running, p: Vector, range: FaceRange)
    requires { range.n ≤ 8 }
    ensures { let r = range.entry in Adds p r.mesh.verts.now r.mesh.faces.now r.first r.n run.old run.new }
{
    if range.n < FEWEST {
        run.add_triangles(p, range);
    } else {
        add_new_group(run, p, range);
    }
}

// The field at p, which has the number i among the stations. The loop goes by the number of each group's first face.
pub fn edge_face_sums(i: u32, p: Vector, mesh: Mesh) -> Result<Newtonian, Refusal>
    ensures { result ≡ edge_face_sums i p mesh.entry.verts.now mesh.entry.faces.now }
{
    let mut run = Running::new();
    let total = mesh.face_count();
    for first in (0..total).step_by(8) {
        let n = (total - first).min(8);
        add_faces(&mut run, p, FaceRange { mesh, first, n });
    }
    run.near_field(i)
}
