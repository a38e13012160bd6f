// Replays the list of the reference build's fields that stands in the file stdin, as profiles. For each body there is a line with the lengths of its
// vertex list, its face list and its second line, and how many profiles it has; a line with the two lists, the order list and a table of stations, each
// with its thirteen numbers; and a line for each profile: the lengths of stations, work and fields; the refusal's number, 0 for none, and its two
// values; how many records are filled, and whether work is the order list; the places of its stations in the table. Then tries the limits of the
// counts. Prints how many profiles were compared, with all of work and fields, and how many differ.
#![tactic(auto)]

ghost use Rattle.std.specs.Prelude.{◌≤◌};

use refusals::Refusal;
use std::io;
use std::io::{Read, Write};
use test_records::Profile;
use test_replay::lines::Tally;
use test_replay::{from_place, lines, runs, word_at};

// The line of a profile: eight numbers and seventeen places, each of 17 bytes.
const PROFILE_BYTES: usize = 425;

// Whether the answer to a profile, work and fields are right.
fn agrees(given: &Profile) -> bool
    requires { given.now.vertices ≤ 1000 }
{
    let mut verts = [0.0; 1000];
    let mut faces = [0; 1000];
    let mut stations = [0.0; 1000];
    let mut work = [0; 1000];
    let mut fields = [0.0; 1000];
    let verts = &mut verts[..given.vertices];
    let faces = &mut faces[..given.faces];
    let stations = &mut stations[..runs::length_at(given.line, 0)];
    let work = &mut work[..runs::length_at(given.line, 1)];
    let fields = &mut fields[..runs::length_at(given.line, 2)];
    runs::read_doubles(given.body, verts);
    runs::read_indices(from_place(given.body, given.vertices), faces);
    given.read_stations(stations);
    runs::mark(work);
    test_records::mark_fields(fields);
    let cause = profile::profile(stations, verts, faces, work, fields);
    given.same_cause(cause) && given.same_lists(work, fields)
}

// The same of the next line, a profile of the body; one that is not there differs.
fn next_agrees(input: &mut impl Read, body: &[u8], vertices: usize, faces: usize) -> bool
    requires { (vertices ≤ 1000) × (faces ≤ 1000) }
{
    let mut line = [0; PROFILE_BYTES];
    input.read_exact(&mut line).is_ok()
        && agrees(&Profile {
            body,
            line: &line,
            vertices,
            faces,
            order: vertices + faces,
        })
}

// A length that a list gives, up to 3800: so many numbers fill a large buffer.
fn body_length(head: &[u8]) -> usize
    ensures { result ≤ 3800 }
{
    word_at(head, 2).min(3800) as usize
}

// The body that a first line begins, and its profiles, as many as that line says, which the loop counts. A body that is not there differs.
fn replay_body(input: &mut impl Read, tally: &mut Tally, head: &[u8]) {
    let mut bytes = [0; 65536];
    let body = &mut bytes[..17 * body_length(head)];
    if input.read_exact(body).is_err() {
        tally.count(0, false);
        return;
    }
    for _ in 0..runs::length_at(head, 3) {
        let vertices = runs::length_at(head, 0);
        let faces = runs::length_at(head, 1);
        tally.count(0, next_agrees(input, body, vertices, faces));
    }
}

// The numbers of one station more than the limit allows.
const STATION_ROOM: usize = 196611;

// The number of the refusal of v zeros as vertices, f zeros as faces and s zeros as stations, with no room for a record, if there is one.
fn zeros(v: usize, f: usize, s: usize) -> Option<u32>
    requires { (v ≤ 60003) × (f ≤ 98307) × (s ≤ 196611) }
{
    let verts = [0.0; runs::VERTEX_ROOM];
    let faces = [0; runs::FACE_ROOM];
    let stations = [0.0; STATION_ROOM];
    let mut work = [0; runs::FACE_ROOM];
    let mut fields = [0.0; 12];
    let cause = profile::profile(
        &stations[..s],
        &verts[..v],
        &faces[..f],
        &mut work,
        &mut fields,
    );
    cause.err().map(Refusal::number)
}

// V = 20,000, F = 32,768 and S = 65,536 are within the limits: no faces is 8, zeros as faces are flipped, 5, and for a station there is no room, 12.
// One more of each is 2.
fn limits() -> bool {
    zeros(60000, 0, 0) == Some(8)
        && zeros(60003, 0, 0) == Some(2)
        && zeros(60000, 98304, 0) == Some(5)
        && zeros(60000, 98307, 0) == Some(2)
        && zeros(60000, 98304, 196608) == Some(12)
        && zeros(60000, 98304, 196611) == Some(2)
}

fn main(rt: HostRuntime) -> io::Result<()> {
    let mut output = io::writer(&rt);
    let tally = lines::replay_limited(&mut rt.reader(), |input, tally| {
        let head: [u8; 68] = lines::read(input)?;
        replay_body(input, tally, &head);
        Some(())
    });
    tally.report(&mut output, 0, &["profile"])?;
    if limits() {
        writeln!(output, "limits of V, F and S: as they should be")?;
    }
    Ok(())
}
