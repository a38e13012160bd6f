// Writes the parts of a sheet that stand before its rows and after them.
#![tactic(auto)]

ghost use Rattle.std.specs.Prelude.{◌≡◌, ◌+◌, ◌*◌, ◌-◌, ◌≤◌, length};
ghost use Rattle.std.proofs.lemmas.List.Edits.{sets};
ghost use Rattle.mesh_orders.specs.Order.{order_list};
ghost use Rattle.sheet_layout.specs.Parts.{joined};
ghost use Rattle.sheet.specs.Input.{source_input};
ghost use Rattle.sheet.specs.Bytes.{trailer_length};
ghost use Rattle.writer_parts.specs.PartsPut.{front_parts, MatesStand, trailer_parts, finished};

use refusals::Refusal;
use sheet::{Source, TRAILER_LENGTH};
use sheet_layout::{put_f64s, put_u32s, put_u64, put_zeros};

// ---- before the rows

// Writes vertices, faces, order list and stations from the front, around the mates, which stand in their place.
pub fn put_front(source: &Source, order: &[u32], out: &mut [u8])
    requires { let s = source_input source.now in
        (order.now ≡ order_list s.faces) × (8 * length s.vertices + 12 * length s.faces + 8 * length s.stations ≤ length out.old) × MatesStand (length s.vertices) s.faces out.old }
    ensures { let s = source_input source.now in out.new ≡ sets out.old 0 (joined (front_parts s.vertices s.faces s.stations)) }
{
    let at = 8 * source.verts.len();
    let n = 4 * source.faces.len();
    put_f64s(out, 0, source.verts);
    put_u32s(out, at, source.faces);
    put_u32s(out, at + n, order);
    put_f64s(out, at + 3 * n, source.stations);
}

// ---- after the rows

// Writes the trailer of v vertices, f faces and n stations from place at on, which is what its pointer holds. The counts are arguments beside the source: as u32 they fit
// by their type; taken from the source's lists, that they fit would be a clause of `put_end`, which asks for none today.
fn put_trailer(source: &Source, v: u32, f: u32, n: u32, volume: f64, out: &mut [u8], at: usize)
    requires { at + trailer_length ≤ length out.old }
    ensures { let s = source_input source.now in out.new ≡ sets out.old at (joined (trailer_parts s.kind v f n s.magnetisation s.ambient volume at)) }
{
    let m = source.magnetisation;
    let b = source.ambient;
    let counts = [source.kind, v, f, n];
    let numbers = [m.x, m.y, m.z, b.x, b.y, b.z, volume];
    put_u32s(out, at, &counts);
    put_f64s(out, at + 16, &numbers);
    put_u64(out, at + 72, at as u64);
}

// Ends the sheet that all of out holds: writes its trailer, or zeros over all of it where a row was refused.
pub fn put_end(
    cause: Result<(), Refusal>,
    source: &Source,
    v: u32,
    f: u32,
    n: u32,
    volume: f64,
    out: &mut [u8],
)
    requires { trailer_length ≤ length out.old }
    ensures { let s = source_input source.now in
        out.new ≡ finished cause (trailer_parts s.kind v f n s.magnetisation s.ambient volume (length out.old - trailer_length)) out.old }
{
    let size = out.len();
    if let Err(_) = cause {
        put_zeros(out, size);
        return;
    }
    put_trailer(source, v, f, n, volume, out, size - TRAILER_LENGTH);
}
