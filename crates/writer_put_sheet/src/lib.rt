// Puts a sheet together of its parts.
#![tactic(auto)]

ghost use Rattle.std.specs.Prelude.{length};
ghost use Rattle.sheet.specs.Input.{source_input};
ghost use Rattle.writer_parts.specs.PartsPut.{MatesStand};
ghost use Rattle.writer_put_sheet.specs.Put.{SheetPut, Prepared};

use refusals::Refusal;
use sheet::Source;
use writer_parts::{put_end, put_front};
use writer_rows::put_rows;

// Writes the sheet over all of out, where the mates stand already, or zeros where a row is refused.
pub fn put_sheet(source: &Source, volume: f64, order: &[u32], out: &mut [u8]) -> Result<(), Refusal>
    requires { let s = source_input source.now in Prepared s order.now volume (length out.old) × MatesStand (length s.vertices) s.faces out.old }
    ensures { SheetPut (source_input source.now) result out.new }
{
    let verts = source.verts;
    let faces = source.faces;
    let stations = source.stations;
    put_front(source, order, out);
    let c = sheet_rows::center_of(source.kind, verts, faces, order);
    let start = 8 * verts.len() + 12 * faces.len() + 8 * stations.len();
    let cause = put_rows(source, c, out, start);
    let v = (verts.len() / 3) as u32;
    let f = (faces.len() / 3) as u32;
    let n = (stations.len() / 3) as u32;
    put_end(cause, source, v, f, n, volume, out);
    cause
}
