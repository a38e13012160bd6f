// A step of the walk over the faces: a group of up to eight faces for a block of eight stations. What of it does not depend on the station is computed once for the block.
#![tactic(auto)]

ghost use Rattle.std.specs.Prelude.{◌≡◌, true, false, ℕ, ◌≤◌, ◌<◌, get_or};
ghost use Rattle.polyhedron_blocks.specs.Blocks.{block_size};
ghost use Rattle.polyhedron_walk.specs.Groups.{BlockAdds};

use mesh::surface::FaceRange;
use polyhedron_blocks::STATIONS;
use polyhedron_edge_face_sums::Running;
use polyhedron_faces::Group;
use polyhedron_far::Block;
use polyhedron_group_sums::HeldFaces;

// The faces, added to the sums of each near station of the block.
fn group_to_block(runs: &mut [Running; STATIONS], block: &Block, faces: &HeldFaces)
    ensures { let r = faces.now.range in BlockAdds block.now r.mesh.verts.now r.mesh.faces.now r.first r.n runs.old runs.new }
{
    for (j, run) in runs.iter_mut().enumerate() {
        if block.near[j] {
            let p = block.places[j];
            polyhedron_group_sums::add_group(run, p, faces);
        }
    }
}

// The group of the faces of the range, made and added to the sums of each near station of the block.
fn one_group(runs: &mut [Running; STATIONS], block: &Block, range: FaceRange)
    requires { range.n ≤ 8 }
    ensures { let r = range.entry in BlockAdds block.now r.mesh.verts.now r.mesh.faces.now r.first r.n runs.old runs.new }
{
    let mut g = Group::zeros();
    polyhedron_group::group(range, &mut g);
    group_to_block(runs, block, &HeldFaces { range, group: &g });
}

// Whether no station of the block is near.
fn none_near(near: &[bool; STATIONS]) -> bool
    ensures { result ≡ true → (i : ℕ) → i < block_size → get_or near.now i false ≡ false }
{
    near.iter().all(|near| !*near)
}

// The faces of the range, made once for the block and added to the sums of each near station; nothing is made where none is near.
pub fn add_near_faces(runs: &mut [Running; STATIONS], block: &Block, range: FaceRange)
    requires { range.n ≤ 8 }
    ensures { let r = range.entry in BlockAdds block.now r.mesh.verts.now r.mesh.faces.now r.first r.n runs.old runs.new }
{
    if !none_near(&block.near) {
        one_group(runs, block, range);
    }
}
