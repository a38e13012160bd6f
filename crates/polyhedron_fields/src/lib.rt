// The fields of a checked mesh at up to eight stations. The faces are walked once for all of them, by groups of eight faces, for near and far stations together.
#![tactic(auto)]

pub mod stations;

ghost use Rattle.std.specs.Prelude.{◌≡◌, List, ℕ, Float, length};
ghost use Rattle.newtonian.specs.declared.Vector.{Vector};
ghost use Rattle.polyhedron_blocks.specs.Blocks.{block_size};
ghost use Rattle.polyhedron_fields.specs.BlockFields.{BlockFields};
ghost use Rattle.polyhedron_fields.specs.Walked.{Walked};

use crate::stations::StationRange;
use mesh::surface::{FaceRange, Mesh};
use newtonian::Newtonian;
use polyhedron_blocks::STATIONS;
use polyhedron_centroid::Center;
use polyhedron_edge_face_sums::Running;
use polyhedron_far::Block;
use polyhedron_group::FEWEST;
use polyhedron_neumaier::Sums;
use refusals::Refusal;

// A list of fields before any is known.
pub fn no_fields() -> [Result<Newtonian, Refusal>; STATIONS]
    ensures { length result ≡ block_size }
{
    let none = Err(Refusal::TooManyEdges(0));
    [none; STATIONS]
}

// The fields at the stations of a block after the walk: a near one's by its run, a far one's by its sums.
fn answers(
    stations: &StationRange,
    block: &Block,
    runs: &[Running; STATIONS],
    sums: &[Sums; STATIONS],
) -> [Result<Newtonian, Refusal>; STATIONS]
    ensures { let s = stations.now in (c : Vector) (r : Float) (v : List Float) (f : List ℕ) →
        Walked s.n c r v f block.now runs.now sums.now → BlockFields s.first s.n block.now.places c r v f result }
{
    let mut out = no_fields();
    for (j, answer) in out[..stations.n].iter_mut().enumerate() {
        *answer = if block.near[j] {
            runs[j].near_field(stations.number(j))
        } else {
            Ok(sums[j].total())
        };
    }
    out
}

// ---- the fields

// By one walk over the faces for all stations, in groups that go by their first face's number.
fn walked(
    stations: &StationRange,
    center: Center,
    mesh: Mesh,
) -> [Result<Newtonian, Refusal>; STATIONS]
    ensures { let s = stations.now in BlockFields s.first s.n s.places center.centroid center.radius mesh.entry.verts.now mesh.entry.faces.now result }
{
    let block = Block {
        places: stations.places,
        near: stations.near(center, false),
    };
    // Past the last station of a short block there is none, neither near nor far.
    let not_far = Block {
        places: stations.places,
        near: stations.near(center, true),
    };
    let mut runs = polyhedron_blocks::no_runs();
    let mut sums = polyhedron_far::no_far_sums();
    let total = mesh.face_count();
    for k in (0..total).step_by(8) {
        let m = (total - k).min(8);
        let range = FaceRange {
            mesh,
            first: k,
            n: m,
        };
        polyhedron_walk::add_near_faces(&mut runs, &block, range);
        not_far.add_far_faces(center.centroid, range, &mut sums);
    }
    answers(stations, &block, &runs, &sums)
}

// Station by station.
fn one_by_one(
    stations: &StationRange,
    center: Center,
    mesh: Mesh,
) -> [Result<Newtonian, Refusal>; STATIONS]
    ensures { let s = stations.now in BlockFields s.first s.n s.places center.centroid center.radius mesh.entry.verts.now mesh.entry.faces.now result }
{
    let mut out = no_fields();
    for (j, answer) in out[..stations.n].iter_mut().enumerate() {
        *answer = polyhedron::polyhedron_at(stations.number(j), stations.places[j], center, mesh);
    }
    out
}

// The fields of a mesh at a block of stations, which is another one at each call. Center and mesh stay two: sheet_rows' `fields_at` has a center beside two lists,
// which are asked to be a mesh for kind 1 alone, so that a struct of center and mesh would be made there for each block. What the walk clears for eight stations would take longer than the field of one, or of a body with few faces.
pub fn fields_of(
    stations: &StationRange,
    center: Center,
    mesh: Mesh,
) -> [Result<Newtonian, Refusal>; STATIONS]
    ensures { let s = stations.now in BlockFields s.first s.n s.places center.centroid center.radius mesh.entry.verts.now mesh.entry.faces.now result }
{
    if stations.n < 2 {
        return one_by_one(stations, center, mesh);
    }
    if mesh.faces.len() < 3 * FEWEST {
        return one_by_one(stations, center, mesh);
    }
    walked(stations, center, mesh)
}
