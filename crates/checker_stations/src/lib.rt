// The checker's last stage: station by station the causes 10 or 11, 13, 20.
#![tactic(auto)]

ghost use Rattle.std.specs.Prelude.{◌≡◌, ℕ, ◌+◌, ◌≤◌, ◌<◌, get_or};
ghost use Rattle.refusals.specs.Causes.{first_of};
ghost use Rattle.mesh_orders.specs.Order.{order_list};
ghost use Rattle.mesh.specs.Surface.{vertex};
ghost use Rattle.polyhedron_blocks.specs.Blocks.{block_size, no_vector};
ghost use Rattle.polyhedron_fields.specs.BlockFields.{no_field};
ghost use Rattle.sheet_rows.specs.BodyWithCenter.{center_of};
ghost use Rattle.sheet.specs.Checker.{kind_in, stations_in, parse, check_station};
ghost use Rattle.checker_lists.specs.Stages.{stations_cause};
ghost use Rattle.checker_stations.specs.FieldIn.{field_in};

use checker_lists::body::SheetBody;
use newtonian::{Newtonian, Vector};
use polyhedron_blocks::STATIONS;
use polyhedron_fields::stations::StationRange;
use refusals::Refusal;
use sheet_readers::Sheet;
use sheet_rows::Center;

// Station i, of which the field is given.
fn check_station(sheet: Sheet, i: u32, field: Result<Newtonian, Refusal>) -> Result<(), Refusal>
    requires { let b = sheet.bytes.now in (i < stations_in b) × (field ≡ field_in b i) }
    ensures { let b = sheet.entry.bytes.now in result ≡ check_station b (parse b) i }
{
    let t = sheet.trailer;
    let row = sheet_rows::row_of(t.kind, t.magnetisation, t.ambient, field)?;
    sheet_rows::row_cause(t.kind, i, Ok(row))?;
    if checker_scans::same_row(sheet.bytes, sheet.row_start(i), t.kind, row) {
        return Ok(());
    }
    Err(Refusal::WrongRow(i))
}

// The place of station i.
fn place_of(sheet: Sheet, i: u32) -> Vector
    requires { i < stations_in sheet.bytes.now }
    ensures { result ≡ vertex (parse sheet.entry.bytes.now).stations i }
{
    sheet_readers::vector_at(sheet.bytes, sheet.station_start(i))
}

// The n stations from the one with the number first on. As `StationRange::of`, from a sheet's bytes: one function for both would take the place as a closure, with a record of where
// it may be called and what it gives (as `fold_used` of polyhedron_centroid has), and be no shorter than the two loops.
fn block_of(sheet: Sheet, first: usize, n: usize) -> StationRange
    requires { (n ≤ block_size) × (first + n ≤ stations_in sheet.bytes.now) }
    ensures range { (result.first ≡ first) × (result.n ≡ n) }
    ensures places { let s = (parse sheet.entry.bytes.now).stations in (j : ℕ) → j < result.n → get_or result.places j no_vector ≡ vertex s (result.first + j) }
{
    let mut places = [Vector {
        x: 0.0,
        y: 0.0,
        z: 0.0,
    }; STATIONS];
    for (j, place) in places[..n].iter_mut().enumerate() {
        *place = place_of(sheet, (first + j) as u32);
    }
    StationRange { places, first, n }
}

// A block of stations, of which the fields are given, in order.
fn check_block(
    sheet: Sheet,
    block: &StationRange,
    fields: [Result<Newtonian, Refusal>; STATIONS],
) -> Result<(), Refusal>
    requires { let b = sheet.bytes.now in let s = block.now in
        (s.first + s.n ≤ stations_in b) × ((j : ℕ) → j < s.n → get_or fields j no_field ≡ field_in b (s.first + j)) }
    ensures { let b = sheet.entry.bytes.now in let s = block.now in result ≡ first_of s.n (λ j. check_station b (parse b) (s.first + j)) }
{
    for (j, field) in fields[..block.n].iter().enumerate() {
        check_station(sheet, block.number(j), *field)?;
    }
    Ok(())
}

// All stations in order, with the center of a mesh. The fields of eight stations are made together, and their rows are then judged in order. A block goes by its first
// station's number.
fn check_stations(body: SheetBody, c: Center) -> Result<(), Refusal>
    requires { c ≡ center_of (kind_in body.sheet.bytes.now) body.mesh.verts.now body.mesh.faces.now }
    ensures { result ≡ stations_cause body.entry.sheet.bytes.now }
{
    let sheet = body.sheet;
    let total = sheet.trailer.stations as usize;
    for first in (0..total).step_by(STATIONS) {
        let n = STATIONS.min(total - first);
        let block = block_of(sheet, first, n);
        let fields = sheet_rows::fields_at(
            sheet.trailer.kind,
            &block,
            c,
            body.mesh.verts,
            body.mesh.faces,
        );
        check_block(sheet, &block, fields)?;
    }
    Ok(())
}

// The stations of a sheet whose body was not refused, with its order list.
pub fn stations_cause(body: SheetBody, order: &[u32]) -> Result<(), Refusal>
    requires { order.now ≡ order_list body.mesh.faces.now }
    ensures { result ≡ stations_cause body.entry.sheet.bytes.now }
{
    let c = sheet_rows::center_of(
        body.sheet.trailer.kind,
        body.mesh.verts,
        body.mesh.faces,
        order,
    );
    check_stations(body, c)
}
