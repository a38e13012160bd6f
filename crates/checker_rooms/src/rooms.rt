// Room for a body's vertices, faces and order list in six sizes: to clear the largest takes longer than to check a small body.
ghost use Rattle.std.specs.Prelude.{◌≡◌, ◌&&◌, ◌*◌, ◌≤◌, ◌<◌, leb};
ghost use Rattle.mesh_orders.specs.Edges.{max_vertices, max_faces};
ghost use Rattle.sheet.specs.Checker.{vertices_in, faces_in};
ghost use Rattle.checker_rooms.specs.Later.{later_cause};

use crate::stages::in_room;
use refusals::Refusal;
use sheet_readers::Sheet;

// In room for V / 3 vertices and U / 3 faces. Each room keeps a stack frame of its own, as in mesh_check: in one frame every body would touch the pages of the largest.
#[inline(never)]
fn in_room_of<const V: usize, const U: usize>(sheet: Sheet) -> Result<(), Refusal>
    requires { (V ≤ 3 * max_vertices) × (U ≤ 3 * max_faces) × (3 * vertices_in sheet.bytes.now ≤ V) × (3 * faces_in sheet.bytes.now ≤ U) }
    ensures { result ≡ later_cause sheet.entry.bytes.now }
{
    let mut verts = [0.0; V];
    let mut faces = [0; U];
    let mut order = [0; U];
    in_room(sheet, &mut verts, &mut faces, &mut order)
}

// Whether room for n vertices and twice as many faces holds the body.
fn fits(sheet: Sheet, n: u32) -> bool
    requires { n < 4 * max_vertices }
    ensures { result ≡ (leb (vertices_in sheet.entry.bytes.now) n && leb (faces_in sheet.entry.bytes.now) (2 * n)) }
{
    if n < sheet.trailer.vertices {
        return false;
    }
    sheet.trailer.faces <= 2 * n
}

// The stages after the opening, in the smallest room that holds the body; the last holds every body within document 01's limits.
pub fn in_smallest_room(sheet: Sheet) -> Result<(), Refusal>
    ensures { result ≡ later_cause sheet.entry.bytes.now }
{
    if fits(sheet, 40) {
        return in_room_of::<120, 240>(sheet);
    }
    if fits(sheet, 160) {
        return in_room_of::<480, 960>(sheet);
    }
    if fits(sheet, 640) {
        return in_room_of::<1920, 3840>(sheet);
    }
    if fits(sheet, 2560) {
        return in_room_of::<7680, 15360>(sheet);
    }
    if fits(sheet, 10240) {
        return in_room_of::<30720, 61440>(sheet);
    }
    in_room_of::<60000, 98304>(sheet)
}
