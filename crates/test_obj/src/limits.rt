// The limits of V and F, with the longest numbers read and written; and lines of 70,000 bytes. Each part has its own stack frame: in one frame they would not fit.
ghost use Rattle.std.specs.Prelude.{◌≡◌, ◌+◌, ◌≤◌, length};

use crate::calls::{Mesh, Refused};
use crate::meshes::{FACE_LINE, TEXT, VERTEX_LINE};
use crate::{calls, marks, meshes};
use test_replay::runs::{FACE_ROOM, VERTEX_ROOM};

// The numbers of 20,000 vertices, and of 32,768 faces.
const COORDINATES: usize = 60_000;

const CORNERS: usize = 98_304;

// Room for N entries. A function, so that no proof counts a literal of a million.
fn room<T: Copy, const N: usize>(entry: T) -> [T; N]
    ensures { N ≡ length result }
{
    [entry; N]
}

// ---- read

// The mesh's text into lists one too short, and into lists just long enough.
fn reads_into(text: &[u8], mesh: Mesh, verts: &mut [f64], faces: &mut [u32]) -> bool
    requires { (1 ≤ length verts.old) × (1 ≤ length faces.old) }
{
    let short = Err(Refused::by(12));
    calls::reads(text, &mut verts[1..], faces, short)
        && calls::reads(text, verts, &mut faces[1..], short)
        && calls::reads(text, verts, faces, Ok(mesh))
}

#[inline(never)]
fn reads_most(text: &[u8], mesh: Mesh) -> bool {
    let mut verts: [f64; COORDINATES] = room(0.0);
    let mut faces: [u32; CORNERS] = room(0);
    reads_into(text, mesh, &mut verts, &mut faces)
}

// Whether the text is refused by the number, with lists that are too short.
fn refuses(text: &[u8], number: u64) -> bool {
    let mut verts = [0.0; 9];
    let mut faces = [0; 9];
    calls::reads(text, &mut verts, &mut faces, Err(Refused::by(number)))
}

// The same of the text with another last byte in the newline's place.
fn refuses_ending(text: &mut [u8], end: u8, number: u64) -> bool {
    if let Some(last) = text.last_mut() {
        *last = end;
    }
    refuses(text, number)
}

// The text without its first vertex and its last face, which is as much as the limits allow.
fn reads_within(text: &[u8], mesh: Mesh) -> bool
    requires { (106 ≤ length text.now) × (3 ≤ length mesh.verts.now) × (3 ≤ length mesh.faces.now) }
{
    let text = &text[VERTEX_LINE..text.len() - FACE_LINE];
    let most = Mesh {
        verts: &mesh.verts[3..],
        faces: &mesh.faces[..mesh.faces.len() - 3],
    };
    reads_most(text, most)
}

// One vertex more, and one face more: the counts come before the lists' lengths. Both with a bad line at the end: it comes before the counts.
fn refuses_more(text: &mut [u8]) -> bool
    requires { 56 ≤ length text.old }
{
    let end = text.len() - FACE_LINE;
    refuses(&text[..end], 2)
        && refuses(&text[VERTEX_LINE..], 2)
        && refuses_ending(text, b'x', 21)
        && refuses_ending(text, b'0', 22)
}

#[inline(never)]
fn read_limits() -> bool {
    let mut text: [u8; TEXT] = room(0);
    let mut verts: [f64; VERTEX_ROOM] = room(0.0);
    let mut faces: [u32; FACE_ROOM] = room(0);
    meshes::put_coordinates(&mut verts);
    meshes::put_corners(&mut faces);
    let mesh = Mesh {
        verts: &verts,
        faces: &faces,
    };
    meshes::write_text(&mut &mut text[..]).is_ok()
        && reads_within(&text, mesh)
        && refuses_more(&mut text)
}

// ---- long lines

const LONG: usize = 70_000;

// The byte over and over between the front and the back.
fn put_between(text: &mut [u8], front: &[u8], byte: u8, back: &[u8])
    requires { length front.now + length back.now ≤ length text.old }
{
    text.fill(byte);
    let end = text.len() - back.len();
    text[..front.len()].copy_from_slice(front);
    text[end..].copy_from_slice(back);
}

// Whether a text with 70,000 times the byte between its front and its back is read as the mesh, or refused so.
fn reads_long(front: &[u8], byte: u8, back: &[u8], wanted: Result<Mesh, Refused>) -> bool
    requires { (length front.now ≤ 100) × (length back.now ≤ 100) }
{
    let mut text = [0; LONG + 200];
    let mut verts = [0.0; 9];
    let mut faces = [0; 9];
    let text = &mut text[..front.len() + LONG + back.len()];
    put_between(text, front, byte, back);
    calls::reads(text, &mut verts, &mut faces, wanted)
}

// A comment, spaces, blank lines.
fn long_right() -> bool {
    let verts = [1.0, 2.0, 3.0, 4.0, 5.0, 6.0];
    let faces = [0; 3];
    let (one, two) = (&verts[..3], &verts);
    let of = |verts, faces| Ok(Mesh { verts, faces });
    reads_long(b"v 1 2 3\n#", b'1', b"\n", of(one, &[]))
        && reads_long(b"v 1 2", b' ', b"3\nf 1 1 1", of(one, &faces))
        && reads_long(b"v 1 2 3", b'\n', b"v 4 5 6", of(two, &[]))
}

fn long_numbers() -> bool {
    let refused = |number| Err(Refused::by(number));
    reads_long(b"v 1 2 ", b'3', b"\nv 1 2 x", refused(22))
        && reads_long(b"v 1 2 0.", b'0', b"\n", refused(22))
        && reads_long(b"v 1 2 ", b'3', b"x\n", refused(21))
        && reads_long(b"v 1 2 3\nf 1 1 ", b'0', b"\n", refused(21))
        && reads_long(b"v 1 2 3\nf 1 1 ", b'0', b"1\n", refused(22))
}

// ---- written

// What the text of the longest numbers takes: 38 bytes to a vertex and 20 to a face.
const SIZE: usize = 38 * COORDINATES / 3 + 20 * CORNERS / 3;

// A list that is no multiple of 3; one vertex more, and one face more. No number could be written.
#[inline(never)]
fn refuses_to_write(text: &mut [u8]) -> bool {
    let mut verts: [f64; VERTEX_ROOM] = room(0.0);
    let mut faces: [u32; FACE_ROOM] = room(0);
    marks::mark(&mut verts);
    marks::mark(&mut faces);
    let mesh = |verts, faces| Mesh { verts, faces };
    let refused = |number| Err(Refused::by(number));
    calls::writes(mesh(&verts, &faces[4..]), text, refused(1))
        && calls::writes(mesh(&verts, &faces[3..]), text, refused(2))
        && calls::writes(mesh(&verts[3..], &faces), &mut text[..0], refused(2))
}

// 20,000 vertices and 32,768 faces: the text one byte too short, and just long enough.
fn writes_into(mesh: Mesh, text: &mut [u8]) -> bool
    requires { 1 ≤ length text.old }
{
    let size = text.len();
    calls::writes(mesh, &mut text[1..], Err(Refused::by(12))) && calls::writes(mesh, text, Ok(size))
}

// The same, and whether the text is the mesh when it is read.
#[inline(never)]
fn writes_most(text: &mut [u8]) -> bool
    requires { 1 ≤ length text.old }
{
    let verts: [f64; COORDINATES] = room(-1e9);
    let mut faces: [u32; CORNERS] = room(0);
    meshes::put_corners(&mut faces);
    let mesh = Mesh {
        verts: &verts,
        faces: &faces,
    };
    writes_into(mesh, text) && reads_most(text, mesh)
}

#[inline(never)]
fn write_limits() -> bool {
    let mut text: [u8; SIZE] = room(0);
    refuses_to_write(&mut text) && writes_most(&mut text)
}

pub fn limits() -> bool {
    read_limits() && long_right() && long_numbers() && write_limits()
}
