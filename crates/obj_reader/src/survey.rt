// The first walk over the lines: the first that is refused, or what the text has; and the walk that looks for the face of refusal 4.
ghost use Rattle.std.specs.Prelude.{◌≡◌, ◌+◌, ◌-◌, ◌*◌, ◌≤◌, ◌<◌, ◌^◌, MatchResult, length, Ok, Err};
ghost use Rattle.mesh_orders.specs.Edges.{max_faces};
ghost use Rattle.mesh.specs.Check.{no_such_vertex};
ghost use Rattle.obj.specs.Reader.{text_cause, faces_of};
ghost use Rattle.obj_reader.specs.Passes.{Adds, Surveys};

use crate::contents::Contents;
use doubles::within_limits;
use obj::Line;
use obj_lines::line;
use refusals::Refusal;

// The contents with those of one line more.
fn with_line(found: Contents, line: Line) -> Contents
    requires { found.vertices + found.faces < 2 ^ 64 - 1 }
    ensures { Adds found line result }
{
    match line {
        Line::Nothing => found,
        Line::Vertex(x, y, z) => Contents {
            vertices: found.vertices + 1,
            within: found.within & within_limits(x) & within_limits(y) & within_limits(z),
            ..found
        },
        Line::Face(a, b, c) => Contents {
            faces: found.faces + 1,
            largest: found.largest.max(a).max(b).max(c),
            ..found
        },
    }
}

// What a text has whose lines are right, or the cause of the first that is not.
pub fn survey(text: &[u8]) -> Result<Contents, Refusal>
    ensures { MatchResult result (Surveys text.now) (λ r. text_cause text.now ≡ Err r) }
{
    let mut found = Contents {
        vertices: 0,
        faces: 0,
        within: true,
        largest: 0,
    };
    for bytes in text.split(|b| *b == b'\n') {
        found = with_line(found, line(bytes)?);
    }
    Ok(found)
}

// Cause 4: the first face with a vertex number that is none of the vertices.
pub fn no_such_vertex(text: &[u8], vertices: u64) -> Result<(), Refusal>
    requires right { text_cause text.now ≡ Ok tt }
    requires few { length (faces_of text.now) ≤ 3 * max_faces }
    ensures { result ≡ no_such_vertex vertices (faces_of text.now) }
{
    let mut k: u32 = 0;
    for bytes in text.split(|b| *b == b'\n') {
        if let Line::Face(a, b, c) = line(bytes)? {
            if vertices <= a.max(b).max(c) {
                return Err(Refusal::NoSuchVertex(k));
            }
            k += 1;
        }
    }
    Ok(())
}
