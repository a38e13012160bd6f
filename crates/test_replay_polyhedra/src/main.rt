// Replays the list of the reference build's polyhedra that stands in the file stdin. Each is a line: the lengths of the
// vertex list, the face list and work; the station; the two lists; the answer's thirteen numbers, or a refusal N as
// 0x7ff0000000000000 + N, its two values and zeros; and work afterwards. Then tries the limits of the counts. Prints how
// many lines were compared, with all of work, and how many differ.
#![tactic(auto)]

ghost use Rattle.std.specs.Prelude.{◌≤◌};

use newtonian::{Newtonian, Vector};
use refusals::Refusal;
use std::io;
use std::io::Write;
use test_replay::runs::Lengths;
use test_replay::{from_place, lines, runs, vector_at};

fn same_answer(expected: &[u8], answer: Result<Newtonian, Refusal>) -> bool {
    match answer {
        Ok(f) => runs::same_field(expected, f),
        Err(r) => {
            let [first, second] = runs::values(r);
            runs::same_words(expected, &[test_replay::refused(r), first, second])
        }
    }
}

// Whether the answer and work are right. `line` is the rest of a line of those lengths.
fn agrees(line: &[u8], lengths: Lengths) -> bool {
    let Lengths {
        vertices: v,
        faces: f,
        work: n,
        ..
    } = lengths;
    let mut verts = [0.0; 1000];
    let mut faces = [0; 1000];
    let mut work = [0; 1000];
    let verts = &mut verts[..v];
    let faces = &mut faces[..f];
    let work = &mut work[..n];
    let lists = from_place(line, 3);
    runs::read_doubles(lists, verts);
    runs::read_indices(from_place(lists, v), faces);
    runs::mark(work);
    let answer = polyhedron::polyhedron(vector_at(line, 0), verts, faces, work);
    let expected = from_place(lists, v + f);
    same_answer(expected, answer) && runs::same_work(from_place(expected, 13), work)
}

// The number of the refusal of v zeros as vertices and f zeros as faces, if there is one.
fn zeros(v: usize, f: usize) -> Option<u32>
    requires { (v ≤ 60003) × (f ≤ 98307) }
{
    let verts = [0.0; runs::VERTEX_ROOM];
    let faces = [0; runs::FACE_ROOM];
    let mut work = [0; runs::FACE_ROOM];
    let origin = Vector::from([0.0; 3]);
    let answer = polyhedron::polyhedron(origin, &verts[..v], &faces[..f], &mut work);
    answer.err().map(Refusal::number)
}

// V = 20,000 and F = 32,768 are within the limits: no faces is 8, and zeros as faces are flipped, 5. One more of either is 2.
fn limits() -> bool {
    zeros(60000, 0) == Some(8)
        && zeros(60003, 0) == Some(2)
        && zeros(60000, 98304) == Some(5)
        && zeros(60000, 98307) == Some(2)
}

fn main(rt: HostRuntime) -> io::Result<()> {
    let mut output = io::writer(&rt);
    let tally = lines::replay_limited(&mut rt.reader(), |input, tally| {
        let head: [u8; 51] = lines::read(input)?;
        let agrees = lines::next_agrees(input, Lengths::of(&head), 16, agrees);
        tally.count(0, agrees);
        Some(())
    });
    tally.report(&mut output, 0, &["polyhedron"])?;
    if limits() {
        writeln!(output, "limits of V and F: as they should be")?;
    }
    Ok(())
}
