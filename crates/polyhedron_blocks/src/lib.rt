// The states of a block of eight stations over which the faces are walked once.
#![tactic(auto)]

ghost use Rattle.std.specs.Prelude.{◌≡◌, ℕ, ◌<◌, length};
ghost use Rattle.polyhedron_edge_face_sums.specs.EdgeFaceSums.{no_faces};
ghost use Rattle.polyhedron_blocks.specs.Blocks.{block_size, CarriesAt};

use polyhedron_edge_face_sums::Running;

// So many stations to a block.
pub const STATIONS: usize = 8;

// The states of a block's stations before the first face.
pub fn no_runs() -> [Running; STATIONS]
    ensures size { length result ≡ block_size }
    ensures carries { (j : ℕ) → j < block_size → CarriesAt j no_faces result }
{
    [Running::new(); STATIONS]
}
