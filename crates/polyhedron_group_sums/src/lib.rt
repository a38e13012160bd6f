// A group of up to eight faces, added to the sums of a station: by lanes, or face by face.
#![tactic(auto)]

ghost use Rattle.std.specs.Prelude.{◌≤◌};
ghost use Rattle.polyhedron_edge_face_sums.specs.Carried.{Adds};
ghost use Rattle.polyhedron_group.specs.Group.{fewest};
ghost use Rattle.polyhedron_group.specs.Held.{HoldsGroup};

use mesh::surface::FaceRange;
use newtonian::Vector;
use polyhedron_edge_face_sums::Running;
use polyhedron_faces::Group;
use polyhedron_group::FEWEST;

// Up to eight faces of a mesh, with the group that holds them where they are not too few for lanes.
#[derive(Clone, Copy)]
pub struct HeldFaces<'a> {
    pub range: FaceRange<'a>,
    pub group: &'a Group,
    pub ghost few: { range.n ≤ 8 },
    pub ghost holds: { fewest ≤ range.n → HoldsGroup range.mesh.verts.now range.mesh.faces.now range.first group.now },
}

// The faces, added to the sums of the station at p: by lanes, if they are not too few, no edge passes through the station and no face lies in a
// plane with it; else face by face.
pub fn add_group(run: &mut Running, p: Vector, faces: &HeldFaces)
    ensures { let r = faces.now.range in Adds p r.mesh.verts.now r.mesh.faces.now r.first r.n run.old run.new }
{
    let range = faces.range;
    if range.n < FEWEST {
        run.add_triangles(p, range);
        return;
    }
    if let Some(field) = polyhedron_eight_faces::add_block(p, faces.group, range.n, run.field) {
        run.field = field;
        return;
    }
    run.add_triangles(p, range);
}
