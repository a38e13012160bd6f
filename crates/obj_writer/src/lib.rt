// `write_obj`: a mesh of whole coordinates as a shape model's text.
#![tactic(auto)]

mod lines;

ghost use Rattle.std.specs.Prelude.{◌≡◌, length};
ghost use Rattle.obj.specs.Writer.{not_whole, given_cause, write_obj, text_after};

use crate::lines::{lines_size, put_lines};
use obj_numerals::cursor::Cursor;
use obj_numerals::is_whole;
use refusals::Refusal;

// The largest magnitude of a coordinate.
const MAX_COORDINATE: u64 = 1_000_000_000;

// Cause 3: a coordinate that is not finite, over 10⁹, or not a whole number.
fn not_whole(verts: &[f64]) -> Result<(), Refusal>
    ensures { result ≡ not_whole verts.now }
{
    for x in verts {
        if !is_whole(MAX_COORDINATE, *x) {
            return Err(Refusal::OutOfLimits);
        }
    }
    Ok(())
}

// The causes 1, 2, 3 and 4. The room handed to `count_cause` is enough, so that its cause 12 never holds.
#[tactic(auto, using(crate::proofs::GivenCauses::not_counted, crate::proofs::GivenCauses::counted, crate::proofs::GivenCauses::few_corners))]
fn given_cause(verts: &[f64], faces: &[u32]) -> Result<(), Refusal>
    ensures { result ≡ given_cause verts.now faces.now }
{
    mesh::count_cause(verts, faces, faces.len())?;
    not_whole(verts)?;
    mesh::scan::no_such_vertex(verts.len() / 3, faces)
}

// Writes the mesh into the text: its `v` lines, then its `f` lines. Answers how many bytes they are.
#[tactic(auto, using(crate::proofs::GivenCauses::given_vertices, crate::proofs::GivenCauses::given_corners))]
pub fn write_obj(verts: &[f64], faces: &[u32], text: &mut [u8]) -> Result<usize, Refusal>
    ensures answer { result ≡ write_obj verts.now faces.now (length text.old) }
    ensures text { text.new ≡ text_after verts.now faces.now text.old }
{
    given_cause(verts, faces)?;
    let size = lines_size(verts) + lines_size(faces);
    if text.len() < size {
        return Err(Refusal::TooShort);
    }
    let mut cursor = Cursor { text, at: 0 };
    put_lines(b'v', verts, &mut cursor);
    put_lines(b'f', faces, &mut cursor);
    Ok(size)
}
