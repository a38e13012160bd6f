// What one line of a shape model's text says.
#![tactic(auto)]

mod decimal;
mod fields;
mod numbers;

ghost use Rattle.obj.specs.Text.{fields, letter_f, letter_v};
ghost use Rattle.std.specs.Prelude.{[], ◌∷◌};
ghost use Rattle.obj.specs.Line.{Says};

use crate::fields::{split_field, three_fields};
use crate::numbers::{all_right, index, number, value};
use obj::Line;
use refusals::Refusal;

// A vertex, by the fields after its letter.
fn vertex(text: &[u8]) -> Result<Line, Refusal>
    ensures { Says ((letter_v ∷ []) ∷ fields text.now) result }
{
    let (x, y, z) = three_fields(text).ok_or(Refusal::WrongLine)?;
    let (p, q, r) = all_right(number(x), number(y), number(z))?;
    Ok(Line::Vertex(value(p), value(q), value(r)))
}

// A face, by the fields after its letter.
fn face(text: &[u8]) -> Result<Line, Refusal>
    ensures { Says ((letter_f ∷ []) ∷ fields text.now) result }
{
    let (a, b, c) = three_fields(text).ok_or(Refusal::WrongLine)?;
    let (p, q, r) = all_right(index(a), index(b), index(c))?;
    Ok(Line::Face(p.whole - 1, q.whole - 1, r.whole - 1))
}

// The line of the given bytes, without its newline.
pub fn line(text: &[u8]) -> Result<Line, Refusal>
    ensures { Says (fields text.now) result }
{
    let Some((first, rest)) = split_field(text) else {
        return Ok(Line::Nothing);
    };
    let letter = first[0];
    if letter == b'#' {
        return Ok(Line::Nothing);
    }
    if first.len() > 1 {
        return Err(Refusal::WrongLine);
    }
    if letter == b'v' {
        return vertex(rest);
    }
    if letter == b'f' {
        return face(rest);
    }
    Err(Refusal::WrongLine)
}
