// The checker's first stage after the opening: reads a sheet's lists, and tries the causes 3, 4, 17 and 18. The room for them is lent, and its fact joins three lists to the
// sheet: a struct of the four would be taken apart when the lists are read, since they are written before and only read after. What 18 lets through is a `SheetBody`.
#![tactic(auto)]

pub mod body;

ghost use Rattle.std.specs.Prelude.{◌≡◌, length};
ghost use Rattle.sheet.specs.Writer.{out_of_limits};
ghost use Rattle.sheet.specs.Checker.{parse};
ghost use Rattle.checker_lists.specs.Stages.{indices_cause, lists_cause, Room, Loaded};

use checker_order::wrong_lists;
use mesh::scan::no_such_vertex;
use newtonian::vector_within_limits;
use refusals::Refusal;
use sheet::{CORNERS_LENGTH, VERTEX_LENGTH};
use sheet_layout::{read_f64s, read_u32s};
use sheet_readers::Sheet;

fn read_lists(sheet: Sheet, verts: &mut [f64], faces: &mut [u32], order: &mut [u32])
    requires { Room sheet.bytes.now (length verts.old) (length faces.old) (length order.old) }
    ensures { Loaded sheet.entry.bytes.now verts.new faces.new order.new }
{
    let v = sheet.trailer.vertices as usize;
    let f = sheet.trailer.faces as usize;
    read_f64s(sheet.bytes, 0, verts);
    read_u32s(sheet.bytes, VERTEX_LENGTH * v, faces);
    read_u32s(sheet.bytes, VERTEX_LENGTH * v + CORNERS_LENGTH * f, order);
}

// Cause 3.
fn out_of_limits(sheet: Sheet, verts: &[f64]) -> Result<(), Refusal>
    requires { verts.now ≡ (parse sheet.bytes.now).vertices }
    ensures { result ≡ out_of_limits (parse sheet.entry.bytes.now) }
{
    mesh::scan::out_of_limits(verts)?;
    if !vector_within_limits(sheet.trailer.magnetisation) {
        return Err(Refusal::OutOfLimits);
    }
    if !vector_within_limits(sheet.trailer.ambient) {
        return Err(Refusal::OutOfLimits);
    }
    let n = 3 * (sheet.trailer.stations as usize);
    checker_scans::out_of_limits_at(sheet.bytes, sheet.stations_start(), n)
}

// The causes 4, 17 and 18. The mates are judged where they stand.
fn indices_cause(sheet: Sheet, verts: &[f64], faces: &[u32], order: &[u32]) -> Result<(), Refusal>
    requires { Loaded sheet.bytes.now verts.now faces.now order.now }
    ensures { result ≡ indices_cause sheet.entry.bytes.now }
{
    let v = sheet.trailer.vertices as usize;
    let f = sheet.trailer.faces as usize;
    no_such_vertex(v, faces)?;
    wrong_lists(
        faces,
        order,
        sheet.bytes,
        VERTEX_LENGTH * v + 2 * CORNERS_LENGTH * f,
    )
}

// Reads the lists, and tries the causes 3, 4, 17 and 18.
pub fn lists_cause(
    sheet: Sheet,
    verts: &mut [f64],
    faces: &mut [u32],
    order: &mut [u32],
) -> Result<(), Refusal>
    requires { Room sheet.bytes.now (length verts.old) (length faces.old) (length order.old) }
    ensures value { result ≡ lists_cause sheet.entry.bytes.now }
    ensures loaded { Loaded sheet.entry.bytes.now verts.new faces.new order.new }
{
    read_lists(sheet, verts, faces, order);
    out_of_limits(sheet, verts)?;
    indices_cause(sheet, verts, faces, order)
}
