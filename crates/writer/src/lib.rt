// The sheet writer. A kind stays its number (sheet_rows/src/kinds.rt).
#![tactic(auto)]

ghost use Rattle.std.specs.Prelude.{◌≡◌, length};
ghost use Rattle.sheet.specs.Input.{input_of, source_input};
ghost use Rattle.writer_causes.specs.LengthsCause.{lengths_cause};
ghost use Rattle.writer.specs.Written.{Writes};
ghost use Rattle.writer.specs.Steps.{LeavesLate};

use newtonian::Vector;
use refusals::Refusal;
use sheet::Source;
use sheet_body::check_body;
use writer_causes::{lengths_cause, number_cause, sheet_length};
use writer_put_sheet::put_sheet;

// Writes the sheet of a body whose counts and lengths are within the limits; the numbers are judged by the caller. The check of the body finds the mates, and leaves them in their place.
fn write_counted(source: &Source, work: &mut [u32], out: &mut [u8]) -> Result<usize, Refusal>
    requires { lengths_cause (source_input source.now) (length work.old) (length out.old) ≡ Ok tt }
    ensures { LeavesLate (source_input source.now) work.old out.old result work.new out.new }
{
    let v = source.verts.len();
    let n = source.faces.len();
    let at = 8 * v + 8 * n;
    let end = at + 4 * n;
    let volume = check_body(source, work, &mut out[at..end])?;
    let size = sheet_length(source.kind, v / 3, n / 3, source.stations.len() / 3);
    put_sheet(source, volume, &work[..n], &mut out[..size])?;
    Ok(size)
}

// Writes the sheet of a body, a mesh (kind 1) or a prism (kind 2), and of the stations into the front of out, and returns its length. verts has three coordinates to a
// vertex, faces three vertex numbers to a face, stations three coordinates to a station; work, which is lent, three entries or more to a face: the order list afterwards.
pub fn write_sheet(
    kind: u32,
    verts: &[f64],
    faces: &[u32],
    magnetisation: Vector,
    ambient: Vector,
    stations: &[f64],
    work: &mut [u32],
    out: &mut [u8],
) -> Result<usize, Refusal>
    ensures { Writes (input_of kind verts.now faces.now magnetisation ambient stations.now) work.old out.old result work.new out.new }
{
    let source = Source {
        kind,
        verts,
        faces,
        magnetisation,
        ambient,
        stations,
    };
    lengths_cause(
        kind,
        verts.len(),
        faces.len(),
        stations.len(),
        work.len(),
        out.len(),
    )?;
    number_cause(&source)?;
    write_counted(&source, work, out)
}
