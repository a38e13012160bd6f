// The records of a checked mesh at many stations, by blocks of eight.
#![tactic(auto)]

ghost use Rattle.std.specs.Prelude.{◌≡◌, List, ℕ, ◌+◌, ◌*◌, ◌/◌, ◌≤◌, ◌<◌, Float, length, get_or};
ghost use Rattle.refusals.specs.Answer.{Answer};
ghost use Rattle.newtonian.specs.Vectors.{field_size};
ghost use Rattle.newtonian.specs.declared.Newtonian.{Newtonian};
ghost use Rattle.mesh_orders.specs.Edges.{2³²};
ghost use Rattle.mesh.specs.Surface.{vertex};
ghost use Rattle.polyhedron_blocks.specs.Blocks.{no_vector};
ghost use Rattle.polyhedron.specs.Polyhedron.{polyhedron_from};
ghost use Rattle.profile_records.specs.Records.{Written, Stored, Done};

use mesh::surface::Mesh;
use polyhedron_blocks::STATIONS;
use polyhedron_centroid::Center;
use polyhedron_fields::stations::StationRange;
use refusals::Refusal;

// The records of a block's stations, up to the first that is refused.
fn block(
    range: &StationRange,
    center: Center,
    mesh: Mesh,
    fields: &mut [f64],
) -> Result<(), Refusal>
    requires { field_size * (range.now.first + range.now.n) ≤ length fields.old }
    ensures fields_len_unchanged { length fields.new ≡ length fields.old }
    ensures by_index { let s = range.now in (a : ℕ → Answer Newtonian) (o : List Float) →
        ((j : ℕ) → j < s.n → a (s.first + j) ≡ polyhedron_from (s.first + j) (get_or s.places j no_vector) center.centroid center.radius mesh.entry.verts.now mesh.entry.faces.now) →
        Written a s.first o fields.old → Stored a (s.first + s.n) o result fields.new }
{
    let answers = polyhedron_fields::fields_of(range, center, mesh);
    profile_records::store(range.first, &answers[..range.n], fields)
}

// The records of all stations, up to the first that is refused. A block goes by its first station's number.
pub fn profile_fields(
    stations: &[f64],
    center: Center,
    mesh: Mesh,
    fields: &mut [f64],
) -> Result<(), Refusal>
    requires { (length stations.now / 3 ≤ 2³²) × (field_size * (length stations.now / 3) ≤ length fields.old) }
    ensures { Done (λ i. polyhedron_from i (vertex stations.now i) center.centroid center.radius mesh.entry.verts.now mesh.entry.faces.now) (length stations.now / 3) fields.old result fields.new }
{
    let total = stations.len() / 3;
    for first in (0..total).step_by(STATIONS) {
        let n = STATIONS.min(total - first);
        let range = StationRange::of(stations, first, n);
        block(&range, center, mesh, fields)?;
    }
    Ok(())
}
