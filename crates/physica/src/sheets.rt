// Sheets: writing, checking, reading their trailer, stations and rows, and their length.
ghost use Rattle.std.specs.Prelude.{◌≡◌, ◌+◌, ◌-◌, length, take, drop};
ghost use Rattle.sheet.specs.Bytes.{trailer_length};
ghost use Rattle.sheet.specs.Checker.{rows_part, row_part};
ghost use Rattle.sheet_readers.specs.Parts.{station_part, sheet_trailer, length_of};
ghost use Rattle.physica_lent.specs.Exported.{Gives};
ghost use Rattle.physica_lent.specs.Sheets.{sheet_input, WritesLent, ChecksLent, numbers_given, row_after, coordinates_given, station_after, trailer_counts, trailer_numbers};

use newtonian::Vector;
use physica_lent::give::{give_trailer, give_values};
use physica_lent::take::numbers_of;
use sheet_readers::STATION_LENGTH;
use sheet_rows::kinds::{PLAIN_BYTES, PLAIN_WIDTH};

// Writes the sheet of a body and of the stations into the front of out; size is its length: 1, 2, 12, 3, 4, 5 to 8 or
// 9, then by station 10 or 11, 13.
#[unsafe(no_mangle)]
pub extern "C" fn physica_write_sheet(
    kind: u32,
    verts: &[f64],
    faces: &[u32],
    magnetisation: &[f64; 3],
    ambient: &[f64; 3],
    stations: &[f64],
    work: &mut [u32],
    out: &mut [u8],
    size: &mut usize,
    values: &mut [u32; 2],
) -> u32
    ensures { WritesLent (sheet_input kind verts.now faces.now magnetisation.now ambient.now stations.now)
        work.old out.old work.new out.new result size.old size.new values.new }
{
    let m = Vector::from(*magnetisation);
    let b = Vector::from(*ambient);
    give_values(
        writer::write_sheet(kind, verts, faces, m, b, stations, work, out),
        size,
        values,
    )
}

// Checks a sheet; found is the kind and S of an accepted one: 16, 1, 2, 3, 4, 17, 18, 7 and 8 or 9, 19, then by station
// 10 or 11, 13, 20.
#[unsafe(no_mangle)]
pub extern "C" fn physica_check_sheet(
    sheet: &[u8],
    found: &mut [u32; 2],
    values: &mut [u32; 2],
) -> u32
    ensures { ChecksLent sheet.now result found.old found.new values.new }
{
    give_values(checker::check_sheet(sheet), found, values)
}

// What stands in the trailer: kind, V, F and S; magnetisation, ambient field and volume: 16, 1, 2.
#[unsafe(no_mangle)]
pub extern "C" fn physica_sheet_trailer(
    sheet: &[u8],
    counts: &mut [u32; 4],
    numbers: &mut [f64; 7],
) -> u32
    ensures counts { Gives trailer_counts (sheet_trailer sheet.now) result counts.old counts.new }
    ensures numbers { Gives trailer_numbers (sheet_trailer sheet.now) result numbers.old numbers.new }
{
    give_trailer(sheet_readers::sheet_trailer(sheet), counts, numbers)
}

// The coordinates of station i, and 3; or 0 where there is none.
#[unsafe(no_mangle)]
pub extern "C" fn physica_sheet_station(sheet: &[u8], i: usize, out: &mut [f64; 3]) -> usize
    ensures count { result ≡ coordinates_given (station_part sheet.now i) }
    ensures out { out.new ≡ station_after (station_part sheet.now i) out.old }
{
    let station = sheet_readers::sheet_station(sheet, i);
    if station.len() < STATION_LENGTH {
        return 0;
    }
    *out = numbers_of(station);
    3
}

// How many bytes the rows take; they end where the trailer begins.
#[unsafe(no_mangle)]
pub extern "C" fn physica_sheet_rows(sheet: &[u8]) -> usize
    ensures count { result ≡ length (rows_part sheet.now) }
    ensures place { take result (drop (length sheet.now - (trailer_length + result)) sheet.now) ≡ rows_part sheet.now }
{
    let rows = sheet_readers::sheet_rows(sheet);
    rows.len()
}

// The eight numbers that every kind's row begins with, of row i, and 8; or 0 where there is none.
#[unsafe(no_mangle)]
pub extern "C" fn physica_sheet_row(sheet: &[u8], i: usize, out: &mut [f64; PLAIN_WIDTH]) -> usize
    ensures count { result ≡ numbers_given (row_part sheet.now i) }
    ensures out { out.new ≡ row_after (row_part sheet.now i) out.old }
{
    let row = sheet_readers::sheet_row(sheet, i);
    if row.len() < PLAIN_BYTES {
        return 0;
    }
    *out = numbers_of(row);
    PLAIN_WIDTH
}

// The bytes of a sheet by its kind and counts; 0 where 1 or 2 refuses them.
#[unsafe(no_mangle)]
pub extern "C" fn physica_sheet_length(
    kind: u32,
    vertices: usize,
    faces: usize,
    stations: usize,
) -> usize
    ensures { result ≡ length_of kind vertices faces stations }
{
    sheet_readers::sheet_length(kind, vertices, faces, stations)
}
