// Writes the rows of a sheet, by blocks of stations.
#![tactic(auto)]

ghost use Rattle.std.specs.Prelude.{◌≡◌, List, ℕ, ◌+◌, ◌*◌, ◌≤◌, length};
ghost use Rattle.mesh_orders.specs.Edges.{max_stations};
ghost use Rattle.sheet_rows.specs.Kinds.{row_width};
ghost use Rattle.sheet_rows.specs.Row.{field_at};
ghost use Rattle.sheet_rows.specs.BodyWithCenter.{BodyWithCenter};
ghost use Rattle.sheet.specs.Input.{source_input, station_at, station_count};
ghost use Rattle.writer_rows.specs.Rows.{RowPut, FieldsAt, RowsUpTo, BlockPut, RowsPut};

use newtonian::Newtonian;
use polyhedron_blocks::STATIONS;
use polyhedron_fields::stations::StationRange;
use refusals::Refusal;
use sheet::Source;
use sheet_rows::Center;

// Writes the row of station i, of which the field is given, at place at; or gives its cause of refusal, 10 or 11, then 13.
fn put_row(
    source: &Source,
    i: u32,
    field: Result<Newtonian, Refusal>,
    out: &mut [u8],
    at: usize,
) -> Result<(), Refusal>
    requires { at + 8 * row_width source.now.kind ≤ length out.old }
    ensures { let s = source_input source.now in field ≡ field_at s.kind i (station_at s i) s.vertices s.faces → RowPut s i at result out.old out.new }
{
    let row = sheet_rows::row_of(source.kind, source.magnetisation, source.ambient, field)?;
    if !sheet_rows::is_finite_row(source.kind, row) {
        return Err(Refusal::NotFinite(i));
    }
    let numbers = sheet_rows::row_numbers(source.kind, row);
    sheet_layout::put_f64s(out, at, &numbers);
    Ok(())
}

// Writes the rows of a block of stations in their places from place at on, up to the first that is refused.
fn put_block(
    source: &Source,
    stations: &StationRange,
    fields: [Result<Newtonian, Refusal>; STATIONS],
    out: &mut [u8],
    at: usize,
) -> Result<(), Refusal>
    requires { let b = stations.now in (b.first + b.n ≤ max_stations) × (at + 8 * row_width source.now.kind * (b.first + b.n) ≤ length out.old) }
    ensures { let s = source_input source.now in let b = stations.now in (o : List ℕ) →
        FieldsAt s.kind b.first b.n s.vertices s.faces s.stations fields → RowsUpTo s at b.first o out.old → BlockPut s at (b.first + b.n) result o out.new }
{
    let length = sheet_rows::kinds::row_length(source.kind);
    for (j, field) in fields[..stations.n].iter().enumerate() {
        let i = stations.first + j;
        put_row(source, i as u32, *field, out, at + length * i)?;
    }
    Ok(())
}

// Writes the rows from place at on, up to the first that is refused, by the number of each block's first station. The fields of eight stations are made together, and their rows are then judged in order.
pub fn put_rows(source: &Source, c: Center, out: &mut [u8], at: usize) -> Result<(), Refusal>
    requires { let s = source_input source.now in
        BodyWithCenter s.kind c s.vertices s.faces × (station_count s ≤ max_stations) × (at + 8 * row_width s.kind * station_count s ≤ length out.old) }
    ensures { RowsPut (source_input source.now) at result out.old out.new }
{
    let total = source.stations.len() / 3;
    for first in (0..total).step_by(STATIONS) {
        let n = STATIONS.min(total - first);
        let stations = StationRange::of(source.stations, first, n);
        let fields = sheet_rows::fields_at(source.kind, &stations, c, source.verts, source.faces);
        put_block(source, &stations, fields, out, at)?;
    }
    Ok(())
}
