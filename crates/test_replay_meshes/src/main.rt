// Replays the list of the reference build's meshes that stands in the file stdin. Each mesh is a line:
// the lengths of the vertex list, the face list and work; the two lists; the answer, its number (0 for a
// volume) and two values; and work afterwards. Then tries the limits of the counts. Prints how many
// meshes were compared, with all of work, and how many differ.
#![tactic(auto)]

ghost use Rattle.std.specs.Prelude.{◌≤◌};

use refusals::Refusal;
use std::io;
use std::io::Write;
use test_replay::runs::Lengths;
use test_replay::{from_place, lines, runs};

// How a list writes a refusal.
fn numbers(r: Refusal) -> [u64; 3] {
    let [a, b] = runs::values(r);
    [u64::from(r.number()), a, b]
}

// Whether the list begins with the answer, of which a volume has no second value.
fn same_answer(expected: &[u8], answer: Result<f64, Refusal>) -> bool {
    match answer {
        Ok(v) => runs::same_words(expected, &[0, doubles::to_bits(v)]),
        Err(r) => runs::same_words(expected, &numbers(r)),
    }
}

// Whether the answer and work are right. `line` is the rest of a line of those lengths.
fn agrees(line: &[u8], lengths: Lengths) -> bool {
    let Lengths {
        vertices: v,
        faces: f,
        work: n,
        ..
    } = lengths;
    let mut verts = [0.0; 1000];
    let mut faces = [0; 1000];
    let mut work = [0; 1000];
    let verts = &mut verts[..v];
    let faces = &mut faces[..f];
    let work = &mut work[..n];
    runs::read_doubles(line, verts);
    runs::read_indices(from_place(line, v), faces);
    runs::mark(work);
    let answer = mesh_check::check_mesh(verts, faces, work);
    let expected = from_place(line, v + f);
    same_answer(expected, answer) && runs::same_work(from_place(expected, 3), work)
}

// The refusal of v zeros as vertices and f zeros as faces, if there is one.
fn zeros(v: usize, f: usize) -> Option<[u64; 3]>
    requires { (v ≤ 60003) × (f ≤ 98307) }
{
    let verts = [0.0; runs::VERTEX_ROOM];
    let faces = [0; runs::FACE_ROOM];
    let mut work = [0; runs::FACE_ROOM];
    let answer = mesh_check::check_mesh(&verts[..v], &faces[..f], &mut work);
    answer.err().map(numbers)
}

// V = 20,000 and F = 32,768 are within the limits: no faces is 8, and zeros as faces are Flipped(0, 0). One more of either is 2.
fn limits() -> bool {
    zeros(60000, 0) == Some([8, 0, 0])
        && zeros(60003, 0) == Some([2, 0, 0])
        && zeros(60000, 98304) == Some([5, 0, 0])
        && zeros(60000, 98307) == Some([2, 0, 0])
}

fn main(rt: HostRuntime) -> io::Result<()> {
    let mut output = io::writer(&rt);
    let tally = lines::replay_limited(&mut rt.reader(), |input, tally| {
        let head: [u8; 51] = lines::read(input)?;
        let agrees = lines::next_agrees(input, Lengths::of(&head), 3, agrees);
        tally.count(0, agrees);
        Some(())
    });
    tally.report(&mut output, 0, &["check_mesh"])?;
    if limits() {
        writeln!(output, "limits of V and F: as they should be")?;
    }
    Ok(())
}
