// Tries `check_sheet` at the limits of F and S, and with one more of each, and prints its verdicts. test_replay_damaged tries the limit of V.
#![tactic(auto)]

ghost use Rattle.std.specs.Prelude.{◌≡◌, ◌+◌, ◌*◌, ◌≤◌, ◌<◌, length};

use newtonian::Vector;
use std::io;

// Prints the verdict on the first n bytes.
fn check(rt: &impl Print, name: &str, sheet: &[u8], n: usize) -> io::Result<()>
    requires { n ≤ length sheet.now }
{
    match checker::check_sheet(&sheet[..n]) {
        Ok(accepted) => println!(rt; "{name}: {accepted}"),
        Err(refusal) => println!(rt; "{name}: {refusal}"),
    }
}

// Kind 1, the counts and the pointer, in the trailer at place `at`.
fn put_counts(sheet: &mut [u8], at: usize, v: u32, f: u32, s: u32)
    requires { at + 80 ≤ length sheet.old }
{
    sheet_layout::put_u32(sheet, at, 1);
    sheet_layout::put_u32(sheet, at + 4, v);
    sheet_layout::put_u32(sheet, at + 8, f);
    sheet_layout::put_u32(sheet, at + 12, s);
    sheet_layout::put_u64(sheet, at + 72, at as u64);
}

// Room for N entries. A function, so that no proof counts a literal of a million.
fn room<T: Copy, const N: usize>(zero: T) -> [T; N]
    ensures { N ≡ length result }
{
    [zero; N]
}

fn vector(x: f64, y: f64, z: f64) -> Vector {
    Vector { x, y, z }
}

// ---- F: a bipyramid of 32,768 faces, over a polygon of 16,384 corners on a parabola

const CORNERS: u32 = 16384;

fn put_vertex(verts: &mut [f64], at: usize, x: f64, y: f64, z: f64)
    requires { at + 3 ≤ length verts.old }
{
    verts[at] = x;
    verts[at + 1] = y;
    verts[at + 2] = z;
}

fn put_corners(verts: &mut [f64]) {
    let (corners, _) = verts.as_chunks_mut::<3>();
    let mut x = 0.0;
    for corner in corners {
        *corner = [x, x * x, 0.0];
        x = x + 1.0;
    }
}

// From each edge of the polygon a face to the upper tip and one to the lower.
fn put_faces(faces: &mut [u32]) {
    let (pairs, _) = faces.as_chunks_mut::<6>();
    let mut from = 0u32;
    for pair in pairs {
        let to = from.wrapping_add(1) % CORNERS;
        *pair = [from, to, CORNERS, to, from, CORNERS + 1];
        from = to;
    }
}

fn write_faces(sheet: &mut [u8]) {
    let mut verts: [f64; 49158] = room(0.0);
    put_corners(&mut verts);
    put_vertex(&mut verts, 49152, 8192.0, 1e8, 1000.0);
    put_vertex(&mut verts, 49155, 8192.0, 1e8, -1000.0);
    let mut faces: [u32; 98304] = room(0);
    put_faces(&mut faces);
    let mut work: [u32; 98304] = room(0);
    let zero = vector(0.0, 0.0, 0.0);
    let stations = [0.0; 3];
    let _ = writer::write_sheet(
        1,
        &verts,
        &faces,
        zero,
        zero,
        &stations[..0],
        &mut work,
        sheet,
    );
}

#[inline(never)]
fn try_faces(rt: &impl Print) -> io::Result<()> {
    // As long as that of one face more than the limit.
    let mut sheet: [u8; 1573028] = room(0);
    write_faces(&mut sheet);
    check(rt, "F = 32768", &sheet, 1572992)?;
    put_counts(&mut sheet, 1572948, 16386, 32769, 0);
    check(rt, "F = 32769", &sheet, 1573028)
}

// ---- S: one station of the tetrahedron T, as often as S

// Writes n bytes of src, from place `from` on, to place `to` of dst.
fn copy(src: &[u8], from: usize, n: usize, dst: &mut [u8], to: usize)
    requires { (from + n ≤ length src.now) × (to + n ≤ length dst.old) }
{
    dst[to..to + n].copy_from_slice(&src[from..from + n]);
}

// Writes in the places from `from` to `to` what stands w bytes before each: the w bytes before `from` over and over.
fn copy_on(bytes: &mut [u8], w: usize, from: usize, to: usize)
    requires { (0 < w) × (w ≤ from) × (from ≤ to) × (to ≤ length bytes.old) }
{
    let (before, after) = bytes[..to].split_at_mut(from);
    for copy in after.chunks_exact_mut(w) {
        copy.copy_from_slice(&before[from - w..]);
    }
}

// The sheet of T with one station.
fn one_station() -> [u8; 408]
    ensures { 408 ≡ length result }
{
    let verts = [0.0, 0.0, 0.0, 1.0, 0.0, 0.0, 0.0, 1.0, 0.0, 0.0, 0.0, 1.0];
    let faces = [0u32, 2, 1, 0, 1, 3, 0, 3, 2, 1, 2, 3];
    let station = [2.0, 0.25, 0.25];
    let mut work = [0u32; 12];
    let mut sheet = [0u8; 408];
    let _ = writer::write_sheet(
        1,
        &verts,
        &faces,
        vector(1.0, 2.0, -2.0),
        vector(20000.0, 0.0, 45000.0),
        &station,
        &mut work,
        &mut sheet,
    );
    sheet
}

// The sheet of T with s times the station of the sheet `one`. The vertices, faces, order list and mates take 240 bytes, a station 24 and a row 64.
fn spread(one: &[u8], sheet: &mut [u8], s: u32)
    requires { (length one.now ≡ 408) × (1 ≤ s) × (s ≤ 65537) × (320 + 88 * s ≤ length sheet.old) }
{
    let rows = 240 + 24 * (s as usize);
    let end = 240 + 88 * (s as usize);
    copy(one, 0, 264, sheet, 0);
    copy_on(sheet, 24, 264, rows);
    copy(one, 264, 64, sheet, rows);
    copy_on(sheet, 64, rows + 64, end);
    copy(one, 328, 80, sheet, end);
    put_counts(sheet, end, 4, 4, s);
}

#[inline(never)]
fn try_stations(rt: &impl Print) -> io::Result<()> {
    let one = one_station();
    // As long as that of one station more than the limit.
    let mut sheet: [u8; 5767576] = room(0);
    spread(&one, &mut sheet, 65536);
    check(rt, "S = 65536", &sheet, 5767488)?;
    spread(&one, &mut sheet, 65537);
    check(rt, "S = 65537", &sheet, 5767576)
}

// The limit of F, and then that of S. Each has its own stack frame: in one frame they would not fit.
fn try_limits(rt: &impl Print) -> io::Result<()> {
    try_faces(rt)?;
    try_stations(rt)
}

fn main(rt: HostRuntime) -> io::Result<()> {
    try_limits(&rt)
}
