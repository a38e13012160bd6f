// `profile`: the fields of a closed polyhedron at many stations over one mesh, a record of thirteen numbers for each. The three
// lists stay arguments, as C passes them; once they are checked, vertices, faces and order list are an `OrderedMesh`.
#![tactic(auto)]

ghost use Rattle.std.specs.Prelude.{◌≡◌, ◌*◌, ◌≤◌, length};
ghost use Rattle.refusals.specs.Causes.{or_else};
ghost use Rattle.newtonian.specs.Vectors.{field_size};
ghost use Rattle.mesh_orders.specs.Edges.{max_stations};
ghost use Rattle.mesh.specs.Check.{work_after};
ghost use Rattle.profile_records.specs.Records.{Done};
ghost use Rattle.profile.specs.Profile.{station_count, field_at, malformed, too_many, too_short, given_cause, profile_cause, fields_after};

use mesh_orders::edges::{MAX_FACES, MAX_STATIONS, MAX_VERTICES};
use newtonian::FIELD_SIZE;
use polyhedron_centroid::{Center, OrderedMesh};
use refusals::Refusal;

// The causes 1, 2 and 12, for a work list of room entries and a list of space numbers for the records.
#[tactic(auto, unfolding(crate::specs::Profile::malformed, crate::specs::Profile::too_many, crate::specs::Profile::too_short, mesh::specs::Check::malformed, mesh::specs::Check::too_many, mesh::specs::Check::too_short))]
fn count_cause(
    stations: &[f64],
    verts: &[f64],
    faces: &[u32],
    room: usize,
    space: usize,
) -> Result<(), Refusal>
    ensures { result ≡ or_else (malformed verts.now faces.now stations.now)
        (or_else (too_many verts.now faces.now stations.now) (too_short faces.now stations.now room space)) }
{
    if verts.len() % 3 != 0 || faces.len() % 3 != 0 || stations.len() % 3 != 0 {
        return Err(Refusal::Malformed);
    }
    if MAX_VERTICES < verts.len() / 3
        || MAX_FACES < faces.len() / 3
        || MAX_STATIONS < stations.len() / 3
    {
        return Err(Refusal::TooMany);
    }
    if room < faces.len() || space < FIELD_SIZE * (stations.len() / 3) {
        return Err(Refusal::TooShort);
    }
    Ok(())
}

// The causes 1, 2, 12 and 3.
fn given_cause(
    stations: &[f64],
    verts: &[f64],
    faces: &[u32],
    room: usize,
    space: usize,
) -> Result<(), Refusal>
    ensures { result ≡ given_cause verts.now faces.now stations.now room space }
{
    count_cause(stations, verts, faces, room, space)?;
    mesh::scan::out_of_limits(verts)?;
    mesh::scan::out_of_limits(stations)
}

// The records of a checked mesh up to the first station that is refused.
fn checked_profile(
    stations: &[f64],
    ordered: OrderedMesh,
    fields: &mut [f64],
) -> Result<(), Refusal>
    requires { (station_count stations.now ≤ max_stations) × (field_size * station_count stations.now ≤ length fields.old) }
    ensures { Done (field_at ordered.entry.verts.now ordered.entry.faces.now stations.now) (station_count stations.now) fields.old result fields.new }
{
    profile_fields::profile_fields(stations, Center::of(ordered), ordered.mesh(), fields)
}

// The fields of a closed polyhedron at S stations, at unit Gρ, into the front of fields, thirteen numbers to a station: potential, gradient, Hessian
// row by row; or refused by 1, 2, 12, 3, 4, 5, 6, 7, 8, or 11 with the first station that is refused. Then the records before it are filled, and its
// own and later ones are as they were. verts, faces and work are as in `polyhedron`; fields has 13 S numbers or more.
pub fn profile(
    stations: &[f64],
    verts: &[f64],
    faces: &[u32],
    work: &mut [u32],
    fields: &mut [f64],
) -> Result<(), Refusal>
    ensures value { result ≡ profile_cause verts.now faces.now stations.now (length work.old) (length fields.old) }
    ensures work { work.new ≡ work_after (profile_cause verts.now faces.now stations.now (length work.old) (length fields.old))
        faces.now work.old }
    ensures fields { fields.new ≡ fields_after (profile_cause verts.now faces.now stations.now (length work.old) (length fields.old))
        verts.now faces.now stations.now fields.old }
{
    given_cause(stations, verts, faces, work.len(), fields.len())?;
    mesh_check::check_surface(verts, faces, work)?;
    let order = &work[..faces.len()];
    let ordered = OrderedMesh {
        verts,
        faces,
        order,
    };
    checked_profile(stations, ordered, fields)
}
