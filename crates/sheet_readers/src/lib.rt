// What readers of a sheet use: the trailer's fields, a sheet that 16, 1 and 2 do not refuse, its stations and rows as parts
// of the sheet, and how long a sheet is. A kind stays its number (sheet_rows/src/kinds.rt).
#![tactic(auto)]

mod opened;

ghost use Rattle.std.specs.Prelude.{◌≡◌, ◌+◌, ◌*◌, ◌≤◌, length};
ghost use Rattle.sheet_rows.specs.Kinds.{row_width};
ghost use Rattle.sheet.specs.Bytes.{trailer_length, pointer_of};
ghost use Rattle.sheet.specs.Checker.{trailer, volume_in, vector_in, rows_part, row_part};
ghost use Rattle.sheet_readers.specs.Parts.{station_part, trailer_fields, sheet_trailer, length_of};

use newtonian::Vector;
pub use opened::Sheet;
use refusals::Refusal;
use sheet::{FACE_LENGTH, TRAILER_LENGTH, VERTEX_LENGTH};
use sheet_layout::{f64_at, u32_at, u64_at};

// The bytes of a station.
pub const STATION_LENGTH: usize = sheet::STATION_LENGTH;

// All that stands in the trailer but the pointer.
#[derive(Clone, Copy)]
pub struct TrailerFields {
    pub kind: u32,
    pub vertices: u32,
    pub faces: u32,
    pub stations: u32,
    pub magnetisation: Vector,
    pub ambient: Vector,
    pub volume: f64,
}

impl TrailerFields {
    // Of bytes that are long enough for a trailer, whatever they hold.
    #[inline(always)]
    #[tactic(auto, unfolding(crate::specs::Parts::trailer_fields))]
    pub fn read(bytes: &[u8]) -> Self
        requires { trailer_length ≤ length bytes.now }
        ensures { result ≡ trailer_fields bytes.now }
    {
        let at = bytes.len() - TRAILER_LENGTH;
        TrailerFields {
            kind: u32_at(bytes, at),
            vertices: u32_at(bytes, at + 4),
            faces: u32_at(bytes, at + 8),
            stations: u32_at(bytes, at + 12),
            magnetisation: vector_at(bytes, at + 16),
            ambient: vector_at(bytes, at + 40),
            volume: f64_at(bytes, at + 64),
        }
    }
}

// Where the trailer begins. This and its neighbours ask that the bytes are long enough for a trailer, and no more need be known of them: a `Sheet` would ask more.
pub fn trailer(bytes: &[u8]) -> usize
    requires { trailer_length ≤ length bytes.now }
    ensures { result ≡ trailer bytes.now }
{
    bytes.len() - TRAILER_LENGTH
}

// The bits of the volume in the trailer.
pub fn volume_bits(bytes: &[u8]) -> u64
    requires { trailer_length ≤ length bytes.now }
    ensures { result ≡ volume_in bytes.now }
{
    u64_at(bytes, trailer(bytes) + 64)
}

// The three doubles from place at on.
pub fn vector_at(bytes: &[u8], at: usize) -> Vector
    requires { at + 24 ≤ length bytes.now }
    ensures { result ≡ vector_in bytes.now at }
{
    Vector {
        x: f64_at(bytes, at),
        y: f64_at(bytes, at + 8),
        z: f64_at(bytes, at + 16),
    }
}

// ---- lengths

// The bytes of n rows.
fn rows_length(kind: u32, n: u32) -> usize
    ensures { result ≡ 8 * row_width kind * n }
{
    sheet_rows::kinds::row_length(kind) * (n as usize)
}

// The bytes before the trailer.
fn pointer_of(kind: u32, vertices: u32, faces: u32, stations: u32) -> usize
    ensures { result ≡ pointer_of kind vertices faces stations }
{
    VERTEX_LENGTH * (vertices as usize)
        + FACE_LENGTH * (faces as usize)
        + STATION_LENGTH * (stations as usize)
        + rows_length(kind, stations)
}

// The bytes of a sheet by its kind and counts; 0 where 1 or 2 refuses them.
pub fn sheet_length(kind: u32, vertices: usize, faces: usize, stations: usize) -> usize
    ensures { result ≡ length_of kind vertices faces stations }
{
    if !sheet_rows::kinds::known_kind(kind, vertices, faces) {
        return 0;
    }
    if !sheet_rows::kinds::within_counts(vertices, faces, stations) {
        return 0;
    }
    pointer_of(kind, vertices as u32, faces as u32, stations as u32) + TRAILER_LENGTH
}

// ---- the trailer, the stations and the rows of bytes that may be no sheet

// The trailer: 16, 1, 2.
pub fn sheet_trailer(sheet: &[u8]) -> Result<TrailerFields, Refusal>
    ensures { result ≡ sheet_trailer sheet.now }
{
    Ok(Sheet::open(sheet)?.trailer)
}

// Station i; nothing past the last, or where 16, 1 or 2 refuses.
#[tactic(auto, using(crate::proofs::Handed::no_station))]
pub fn sheet_station(sheet: &[u8], i: usize) -> &[u8]
    ensures { result.now ≡ station_part sheet.now i }
{
    match Sheet::open(sheet) {
        Ok(opened) => opened.station(i),
        Err(_) => &sheet[0..0],
    }
}

// The rows, from the first's first byte to the trailer; nothing where 16, 1 or 2 refuses.
#[tactic(auto, using(crate::proofs::Opening::no_rows))]
pub fn sheet_rows(sheet: &[u8]) -> &[u8]
    ensures { result.now ≡ rows_part sheet.now }
{
    match Sheet::open(sheet) {
        Ok(opened) => opened.rows(),
        Err(_) => &sheet[0..0],
    }
}

// Row i; nothing past the last, or where 16, 1 or 2 refuses.
#[tactic(auto, using(crate::proofs::Opening::no_row))]
pub fn sheet_row(sheet: &[u8], i: usize) -> &[u8]
    ensures { result.now ≡ row_part sheet.now i }
{
    match Sheet::open(sheet) {
        Ok(opened) => opened.row(i),
        Err(_) => &sheet[0..0],
    }
}
