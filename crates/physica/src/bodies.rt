// The bodies: prism, mesh, polyhedron at a station and along a profile. C passes pointers to numbers, so vectors come as arrays.
ghost use Rattle.std.specs.Prelude.{◌≡◌, length};
ghost use Rattle.prism.specs.Prism.{prism};
ghost use Rattle.mesh.specs.Check.{check_mesh, mesh_cause, work_after};
ghost use Rattle.polyhedron.specs.Polyhedron.{polyhedron, polyhedron_cause};
ghost use Rattle.profile.specs.Profile.{profile_cause, fields_after};
ghost use Rattle.newtonian.specs.Vectors.{field_numbers};
ghost use Rattle.physica_lent.specs.Exported.{vector_of, itself, GivesValues, GivesCause};

use newtonian::Vector;
use physica_lent::give::{give_cause, give_values};

// The field of a prism at a station: 3, 9, 10 with station 0.
#[unsafe(no_mangle)]
pub extern "C" fn physica_prism(
    station: &[f64; 3],
    min: &[f64; 3],
    max: &[f64; 3],
    out: &mut [f64; 13],
    values: &mut [u32; 2],
) -> u32
    ensures { GivesValues field_numbers (prism (vector_of station.now) (vector_of min.now) (vector_of max.now)) result out.old out.new values.new }
{
    let (min, max) = (Vector::from(*min), Vector::from(*max));
    give_values(prism::prism(Vector::from(*station), min, max), out, values)
}

// The volume of a closed mesh: 1, 2, 12, 3, 4, 5, 6, 7, 8. work is lent, three entries or more to a face.
#[unsafe(no_mangle)]
pub extern "C" fn physica_check_mesh(
    verts: &[f64],
    faces: &[u32],
    work: &mut [u32],
    out: &mut f64,
    values: &mut [u32; 2],
) -> u32
    ensures gives_values { GivesValues itself (check_mesh verts.now faces.now (length work.old)) result out.old out.new values.new }
    ensures work { work.new ≡ work_after (mesh_cause verts.now faces.now (length work.old)) faces.now work.old }
{
    give_values(mesh_check::check_mesh(verts, faces, work), out, values)
}

// The field of a closed mesh at a station: 1, 2, 12, 3, 4, 5, 6, 7, 8, 11 with station 0.
#[unsafe(no_mangle)]
pub extern "C" fn physica_polyhedron(
    station: &[f64; 3],
    verts: &[f64],
    faces: &[u32],
    work: &mut [u32],
    out: &mut [f64; 13],
    values: &mut [u32; 2],
) -> u32
    ensures gives_values { GivesValues field_numbers (polyhedron (vector_of station.now) verts.now faces.now (length work.old)) result out.old out.new values.new }
    ensures work { work.new ≡ work_after (polyhedron_cause (vector_of station.now) verts.now faces.now (length work.old)) faces.now work.old }
{
    let field = polyhedron::polyhedron(Vector::from(*station), verts, faces, work);
    give_values(field, out, values)
}

// The fields of a closed mesh at S stations, thirteen numbers each, into the front of fields: 1, 2, 12, 3, 4, 5, 6, 7, 8, then 11 with the first
// station that is refused, after the records before it.
#[unsafe(no_mangle)]
pub extern "C" fn physica_profile(
    stations: &[f64],
    verts: &[f64],
    faces: &[u32],
    work: &mut [u32],
    fields: &mut [f64],
    values: &mut [u32; 2],
) -> u32
    ensures gives_cause { GivesCause (profile_cause verts.now faces.now stations.now (length work.old) (length fields.old)) result values.new }
    ensures work { work.new ≡ work_after (profile_cause verts.now faces.now stations.now (length work.old) (length fields.old))
        faces.now work.old }
    ensures fields { fields.new ≡ fields_after (profile_cause verts.now faces.now stations.now (length work.old) (length fields.old))
        verts.now faces.now stations.now fields.old }
{
    let cause = profile::profile(stations, verts, faces, work, fields);
    give_cause(cause, values)
}
