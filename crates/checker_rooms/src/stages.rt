// The stages after the opening, one after the other, in room that is lent.
ghost use Rattle.std.specs.Prelude.{◌≡◌, ◌*◌, ◌≤◌, length};
ghost use Rattle.refusals.specs.Causes.{or_else};
ghost use Rattle.sheet.specs.Checker.{vertices_in, faces_in};
ghost use Rattle.checker_lists.specs.Stages.{lists_cause, volume_cause, stations_cause, Room, Loaded};
ghost use Rattle.checker_rooms.specs.Later.{later_cause};

use checker_lists::body::SheetBody;
use mesh::surface::Mesh;
use refusals::Refusal;
use sheet_readers::Sheet;

// The body and the stations, of lists that were read and not refused.
fn body_cause<'a>(
    sheet: Sheet<'a>,
    verts: &'a [f64],
    faces: &'a [u32],
    order: &[u32],
) -> Result<(), Refusal>
    requires { Loaded sheet.bytes.now verts.now faces.now order.now × (lists_cause sheet.bytes.now ≡ Ok tt) }
    ensures { let b = sheet.entry.bytes.now in result ≡ or_else (volume_cause b) (stations_cause b) }
{
    let mesh = Mesh { verts, faces };
    let body = SheetBody { sheet, mesh };
    checker_body::volume_cause(body)?;
    checker_stations::stations_cause(body, order)
}

// The lists, the body, the stations.
#[tactic(auto, unfolding(crate::specs::Later::later_cause))]
fn later_cause(
    sheet: Sheet,
    verts: &mut [f64],
    faces: &mut [u32],
    order: &mut [u32],
) -> Result<(), Refusal>
    requires { Room sheet.bytes.now (length verts.old) (length faces.old) (length order.old) }
    ensures { result ≡ later_cause sheet.entry.bytes.now }
{
    checker_lists::lists_cause(sheet, verts, faces, order)?;
    body_cause(sheet, verts, faces, order)
}

// The same, with room to spare.
pub(crate) fn in_room(
    sheet: Sheet,
    verts: &mut [f64],
    faces: &mut [u32],
    order: &mut [u32],
) -> Result<(), Refusal>
    requires { let b = sheet.bytes.now in
        (3 * vertices_in b ≤ length verts.old) × (3 * faces_in b ≤ length faces.old) × (3 * faces_in b ≤ length order.old) }
    ensures { result ≡ later_cause sheet.entry.bytes.now }
{
    let v = 3 * (sheet.trailer.vertices as usize);
    let f = 3 * (sheet.trailer.faces as usize);
    later_cause(sheet, &mut verts[..v], &mut faces[..f], &mut order[..f])
}
