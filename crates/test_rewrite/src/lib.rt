// Writes what a sheet holds anew, and compares: a test of the writer and the checker against each other. Test programs are tested, each by a
// changed list on which it reports a difference, and not proved: what is proved of them is that they are safe and end.
#![tactic(auto)]

use sheet::{FACE_LENGTH, STATION_LENGTH, TRAILER_LENGTH, VERTEX_LENGTH};
use sheet_readers::TrailerFields;

// What stands past the sheet.
const MARK: u8 = 0xa5;

// The longest sheet that is written anew.
pub const ROOM: usize = 16384;

// Whether the writer, given what the sheet holds, writes the same bytes and leaves those past them as they were. No for a longer sheet than
// there is room for.
pub fn is_rewritten(sheet: &[u8]) -> bool {
    let n = sheet.len();
    if n < TRAILER_LENGTH || ROOM < n {
        return false;
    }
    let t = TrailerFields::read(sheet);
    let v = t.vertices as usize;
    let f = t.faces as usize;
    let s = t.stations as usize;
    let stations_start = VERTEX_LENGTH * v + FACE_LENGTH * f;
    let row_length = sheet_rows::kinds::row_length(t.kind);
    if n != stations_start + (STATION_LENGTH + row_length) * s + TRAILER_LENGTH {
        return false;
    }
    let mut verts = [0.0; 2048];
    let mut faces = [0; 2048];
    let mut stations = [0.0; 2048];
    let mut work = [0; 2048];
    let mut out = [MARK; ROOM + 8];
    let verts = &mut verts[..3 * v];
    let faces = &mut faces[..3 * f];
    let stations = &mut stations[..3 * s];
    let work = &mut work[..3 * f];
    let out = &mut out[..n + 8];
    sheet_layout::read_f64s(sheet, 0, verts);
    sheet_layout::read_u32s(sheet, VERTEX_LENGTH * v, faces);
    sheet_layout::read_f64s(sheet, stations_start, stations);
    let (m, b) = (t.magnetisation, t.ambient);
    let written = writer::write_sheet(t.kind, verts, faces, m, b, stations, work, out);
    written == Ok(n) && out.starts_with(sheet) && out[n..].iter().all(|x| *x == MARK)
}
