// The parts of `check_mesh`: the counts, the scans, and normals and volume.
#![tactic(auto)]

pub mod scan;
pub mod surface;

ghost use Rattle.std.specs.Prelude.{◌≡◌};
ghost use Rattle.mesh.specs.Check.{count_cause};

use mesh_orders::edges::{MAX_FACES, MAX_VERTICES};
use refusals::Refusal;

// The causes 1, 2 and 12, for a work list of room entries. The lists stay as C passes them: nothing is known of them yet.
pub fn count_cause(verts: &[f64], faces: &[u32], room: usize) -> Result<(), Refusal>
    ensures { result ≡ count_cause verts.now faces.now room }
{
    if verts.len() % 3 != 0 {
        return Err(Refusal::Malformed);
    }
    if faces.len() % 3 != 0 {
        return Err(Refusal::Malformed);
    }
    if MAX_VERTICES < verts.len() / 3 {
        return Err(Refusal::TooMany);
    }
    if MAX_FACES < faces.len() / 3 {
        return Err(Refusal::TooMany);
    }
    if room < faces.len() {
        return Err(Refusal::TooShort);
    }
    Ok(())
}
