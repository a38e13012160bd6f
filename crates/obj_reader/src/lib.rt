// `read_obj`: the mesh of a shape model's text. The text is walked twice: first every line is judged and the vertices and faces are counted, then the numbers are stored; and once more
// where a face may name no vertex.
#![tactic(auto)]

mod contents;
mod store;
mod survey;

ghost use Rattle.std.specs.Prelude.{◌≡◌, length, Ok};
ghost use Rattle.obj.specs.Reader.{vertices_of, faces_of, read_cause, reader_cause, read_obj, list_after};
ghost use Rattle.obj_reader.specs.Passes.{Surveys};

use crate::contents::Contents;
use mesh_orders::edges::{MAX_FACES, MAX_VERTICES};
use obj::Counts;
use refusals::Refusal;

// The causes 2, 12, 3 and 4 of a text whose lines are right, for lent lists of n and m entries. The face that 4 names is looked for only where there may be one.
fn read_cause(text: &[u8], found: Contents, n: usize, m: usize) -> Result<(), Refusal>
    requires { Surveys text.now found }
    ensures { result ≡ read_cause (vertices_of text.now) (faces_of text.now) n m }
{
    if MAX_VERTICES < found.vertices {
        return Err(Refusal::TooMany);
    }
    if MAX_FACES < found.faces {
        return Err(Refusal::TooMany);
    }
    if n < 3 * found.vertices {
        return Err(Refusal::TooShort);
    }
    if m < 3 * found.faces {
        return Err(Refusal::TooShort);
    }
    if !found.within {
        return Err(Refusal::OutOfLimits);
    }
    if found.largest < found.vertices as u64 {
        return Ok(());
    }
    survey::no_such_vertex(text, found.vertices as u64)
}

// V and F of the mesh in the text, whose numbers the lists then begin with; or refused by 21 or 22 (the first bad line), 2, 12, 3 or 4, with the lists as they were.
pub fn read_obj(text: &[u8], verts: &mut [f64], faces: &mut [u32]) -> Result<Counts, Refusal>
    ensures answer { result ≡ read_obj text.now (length verts.old) (length faces.old) }
    ensures verts { verts.new ≡ list_after (reader_cause text.now (length verts.old) (length faces.old)) (vertices_of text.now) verts.old }
    ensures faces { faces.new ≡ list_after (reader_cause text.now (length verts.old) (length faces.old)) (faces_of text.now) faces.old }
{
    let found = survey::survey(text)?;
    read_cause(text, found, verts.len(), faces.len())?;
    store::store(text, verts, faces)?;
    Ok(Counts {
        vertices: found.vertices as u32,
        faces: found.faces as u32,
    })
}
