// What `write_sheet` asks of its arguments before it touches anything: the causes of refusal 1, 2, 12 and 3.
// Lengths and counts stay numbers side by side: they alone decide the causes, which compare them one with another, and a `Source` would ask for the lists too. A kind stays its number (sheet_rows/src/kinds.rt).
#![tactic(auto)]

ghost use Rattle.std.specs.Prelude.{◌≡◌, List, ℕ, ◌+◌, ◌≤◌};
ghost use Rattle.mesh_orders.specs.Edges.{max_vertices, max_faces, max_stations};
ghost use Rattle.sheet.specs.Bytes.{trailer_length, pointer_of};
ghost use Rattle.sheet.specs.Writer.{out_of_limits};
ghost use Rattle.sheet.specs.Input.{SheetInput, input_of, source_input};
ghost use Rattle.writer_causes.specs.LengthsCause.{well_formed, Lengths, lengths_cause};

use refusals::Refusal;
use sheet::{FACE_LENGTH, STATION_LENGTH, Source, TRAILER_LENGTH, VERTEX_LENGTH};

// ---- 1, 2 and 12

// Of the lengths of the three lists.
fn well_formed(kind: u32, verts: usize, faces: usize, stations: usize) -> bool
    ensures { result ≡ well_formed kind verts faces stations }
{
    verts % 3 == 0
        && faces % 3 == 0
        && stations % 3 == 0
        && sheet_rows::kinds::known_kind(kind, verts / 3, faces / 3)
}

// The length of a sheet of v vertices, f faces and n stations.
pub fn sheet_length(kind: u32, v: usize, f: usize, n: usize) -> usize
    requires { (v ≤ max_vertices) × (f ≤ max_faces) × (n ≤ max_stations) }
    ensures { result ≡ pointer_of kind v f n + trailer_length }
{
    VERTEX_LENGTH * v
        + FACE_LENGTH * f
        + (STATION_LENGTH + sheet_rows::kinds::row_length(kind)) * n
        + TRAILER_LENGTH
}

// For the lengths of the lists, of work and of out, which alone decide it.
pub fn lengths_cause(
    kind: u32,
    verts: usize,
    faces: usize,
    stations: usize,
    work: usize,
    out: usize,
) -> Result<(), Refusal>
    ensures { (s : SheetInput) → Lengths s kind verts faces stations → result ≡ lengths_cause s work out }
{
    if !well_formed(kind, verts, faces, stations) {
        return Err(Refusal::Malformed);
    }
    let v = verts / 3;
    let f = faces / 3;
    let n = stations / 3;
    if !sheet_rows::kinds::within_counts(v, f, n) {
        return Err(Refusal::TooMany);
    }
    if work < faces {
        return Err(Refusal::TooShort);
    }
    if out < sheet_length(kind, v, f, n) {
        return Err(Refusal::TooShort);
    }
    Ok(())
}

// ---- 3

// Kind and faces play no part.
pub fn number_cause(source: &Source) -> Result<(), Refusal>
    ensures { let s = source_input source.now in
        (k : ℕ) (f : List ℕ) → result ≡ out_of_limits (input_of k s.vertices f s.magnetisation s.ambient s.stations) }
{
    mesh::scan::out_of_limits(source.verts)?;
    if !anomaly::both_within_limits(source.magnetisation, source.ambient) {
        return Err(Refusal::OutOfLimits);
    }
    mesh::scan::out_of_limits(source.stations)
}
