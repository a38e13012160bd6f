// A large mesh by rule, and its text with the longest numbers: 15 digits each, a minus and a point, zeros in front of an index.
ghost use Rattle.std.specs.Prelude.{◌≤◌, ◌<◌, length};

use std::io::Write;
use std::{fmt, io};

// The vertices and faces of the mesh, one of each more than the limits allow.
const VERTICES: usize = 20_001;

const FACES: usize = 32_769;

// The lines of a vertex and of a face, and all of them.
pub const VERTEX_LINE: usize = 56;

pub const FACE_LINE: usize = 50;

pub const TEXT: usize = VERTEX_LINE * VERTICES + FACE_LINE * FACES;

// A coordinate by its millionths, 15 digits.
#[derive(Clone, Copy)]
struct Millionths(u64);

impl Millionths {
    // Those of coordinate k.
    fn of(k: usize) -> Millionths
        requires { k ≤ 60003 }
        ensures { result.0 ≤ 900000000000000 }
    {
        Millionths(900_000_000_000_000 - 4_999_999_937 * k as u64)
    }
}

impl fmt::Display for Millionths {
    fn fmt<W: fmt::Write>(&self, f: &mut fmt::Formatter<W>) -> fmt::Result {
        write!(f, "-{:09}.{:06}", self.0 / 1_000_000, self.0 % 1_000_000)
    }
}

// Vertex number k of the faces: one of the last 10,000 of 20,000 vertices, so that each has five digits.
fn corner(k: usize) -> u32
    requires { k ≤ 98307 }
    ensures { result < 20000 }
{
    10_000 + (7919 * k % 10_000) as u32
}

pub fn put_coordinates(xs: &mut [f64])
    requires { length xs.old ≤ 60003 }
{
    for (k, x) in xs.iter_mut().enumerate() {
        *x = -(Millionths::of(k).0 as f64 / 1e6);
    }
}

pub fn put_corners(xs: &mut [u32])
    requires { length xs.old ≤ 98307 }
{
    for (k, x) in xs.iter_mut().enumerate() {
        *x = corner(k);
    }
}

fn write_vertices(output: &mut impl Write) -> io::Result<()> {
    for k in 0..VERTICES {
        let x = Millionths::of(3 * k);
        let y = Millionths::of(3 * k + 1);
        let z = Millionths::of(3 * k + 2);
        writeln!(output, "v {x} {y} {z}")?;
    }
    Ok(())
}

fn write_faces(output: &mut impl Write) -> io::Result<()> {
    for k in 0..FACES {
        let a = corner(3 * k) + 1;
        let b = corner(3 * k + 1) + 1;
        let c = corner(3 * k + 2) + 1;
        writeln!(output, "f {a:015} {b:015} {c:015}")?;
    }
    Ok(())
}

// Writes the text of the mesh, all of its vertices and then all of its faces.
pub fn write_text(output: &mut impl Write) -> io::Result<()> {
    write_vertices(output)?;
    write_faces(output)
}
