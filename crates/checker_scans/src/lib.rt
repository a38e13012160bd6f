// The checker's scans of a sheet's doubles: the stations' coordinates, and a stored row beside a computed one. A kind stays its number (sheet_rows/src/kinds.rt).
#![tactic(auto)]

ghost use Rattle.std.specs.Prelude.{◌≡◌, ◌+◌, ◌*◌, ◌≤◌, length};
ghost use Rattle.mesh.specs.Check.{out_of_limits};
ghost use Rattle.sheet_layout.specs.LittleEndian.{unpack, bits, doubles};
ghost use Rattle.sheet_rows.specs.Kinds.{row_width};
ghost use Rattle.sheet_rows.specs.Row.{row_numbers};
ghost use Rattle.sheet.specs.Checker.{same_numbers};

use doubles::{to_bits, within_limits};
use refusals::Refusal;
use sheet_layout::{f64_at, u64_at};
use sheet_rows::Row;

// Cause 3 of the n doubles from place at on: they are read where they stand.
pub fn out_of_limits_at(sheet: &[u8], at: usize, n: usize) -> Result<(), Refusal>
    requires { at + 8 * n ≤ length sheet.now }
    ensures { result ≡ out_of_limits (doubles (unpack 8 n sheet.now at)) }
{
    let (numbers, _) = sheet[at..at + 8 * n].as_chunks::<8>();
    if numbers.iter().all(|b| within_limits(f64_at(b, 0))) {
        return Ok(());
    }
    Err(Refusal::OutOfLimits)
}

// Whether the doubles from place at on have the bits of xs.
fn same_numbers(sheet: &[u8], at: usize, xs: &[f64]) -> bool
    requires { at + 8 * length xs.now ≤ length sheet.now }
    ensures { result ≡ same_numbers (unpack 8 (length xs.now) sheet.now at) (bits xs.now) }
{
    for (i, x) in xs.iter().enumerate() {
        if u64_at(sheet, at + 8 * i) != to_bits(*x) {
            return false;
        }
    }
    true
}

// Whether the row that begins at place at has the bits of the computed one.
pub fn same_row(sheet: &[u8], at: usize, kind: u32, row: Row) -> bool
    requires { at + 8 * row_width kind ≤ length sheet.now }
    ensures { result ≡ same_numbers (unpack 8 (row_width kind) sheet.now at) (bits (row_numbers kind row)) }
{
    let numbers = sheet_rows::row_numbers(kind, row);
    same_numbers(sheet, at, &numbers)
}
