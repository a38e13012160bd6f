// Replays the list of texts and meshes in the file stdin, made by reference/obj_list.py, whose head says what an entry is: texts read into lists, and meshes
// written as text and read back. Then tries the limits. Prints how many entries were compared, with all of the lent lists and texts, and how many differ.
#![tactic(auto)]

mod calls;
mod limits;
mod marks;
mod meshes;

ghost use Rattle.std.specs.Prelude.{◌≤◌, length};

use crate::calls::{Mesh, Refused};
use std::io;
use std::io::{Read, Write};
use test_replay::{are_words, from_place, lines, runs, word_at};

// The longest text of an entry, and the longest of its lists.
const TEXT: usize = 4000;

const LIST: usize = 1000;

// The length of a text that an entry's head gives at k.
fn text_length_at(head: &[u8], k: usize) -> usize
    ensures { result ≤ 4000 }
{
    word_at(head, k).min(4000) as usize
}

// What the head says of the call: this answer, or the refusal.
fn wanted<T: Copy>(head: &[u8], answer: T) -> Result<T, Refused> {
    let refused = Refused {
        number: word_at(head, 4),
        value: word_at(head, 5),
    };
    if refused == Refused::default() {
        Ok(answer)
    } else {
        Err(refused)
    }
}

// Whether the text is read into lists of the lengths in the head as the head says.
fn read_agrees(head: &[u8], text: &[u8], mesh: Mesh) -> bool {
    let mut verts = [0.0; LIST];
    let mut faces = [0; LIST];
    let verts = &mut verts[..runs::length_at(head, 6)];
    let faces = &mut faces[..runs::length_at(head, 7)];
    calls::reads(text, verts, faces, wanted(head, mesh))
}

// Whether the text is read as the mesh, into lists as long as the mesh's own.
fn is_read_back(text: &[u8], mesh: Mesh) -> bool
    requires { (length mesh.verts.now ≤ 1000) × (length mesh.faces.now ≤ 1000) }
{
    let mut verts = [0.0; LIST];
    let mut faces = [0; LIST];
    let verts = &mut verts[..mesh.verts.len()];
    let faces = &mut faces[..mesh.faces.len()];
    calls::reads(text, verts, faces, Ok(mesh))
}

// Whether the mesh is written into a lent text of the length in the head as the head says: as the text, which is the mesh when it is read, or not at all.
fn write_agrees(head: &[u8], text: &[u8], mesh: Mesh) -> bool
    requires { (length mesh.verts.now ≤ 1000) × (length mesh.faces.now ≤ 1000) }
{
    let mut lent = [0; TEXT];
    let lent = &mut lent[..text_length_at(head, 6)];
    let wanted = wanted(head, text_length_at(head, 7));
    calls::writes(mesh, lent, wanted)
        && match wanted {
            Ok(_) => lent.starts_with(text) && is_read_back(text, mesh),
            Err(_) => text.is_empty(),
        }
}

// Whether the entry that the head begins is there, has a number in each place, and is as the head says.
fn next_agrees(input: &mut impl Read, head: &[u8]) -> bool {
    let (mut text, mut words) = ([0; TEXT + 1], [0; 17 * 2 * LIST]);
    let (mut verts, mut faces) = ([0.0; LIST], [0; LIST]);
    let verts = &mut verts[..runs::length_at(head, 2)];
    let faces = &mut faces[..runs::length_at(head, 3)];
    let line = &mut text[..text_length_at(head, 1) + 1];
    if input.read_exact(line).is_err() {
        return false;
    }
    let words = &mut words[..17 * (verts.len() + faces.len())];
    if input.read_exact(words).is_err() || !are_words(words) {
        return false;
    }
    runs::read_doubles(words, verts);
    runs::read_indices(from_place(words, verts.len()), faces);
    let text = &line[..line.len() - 1];
    let mesh = Mesh { verts, faces };
    if word_at(head, 0) == 0 {
        read_agrees(head, text, mesh)
    } else {
        write_agrees(head, text, mesh)
    }
}

fn main(rt: HostRuntime) -> io::Result<()> {
    let mut output = io::writer(&rt);
    let tally = lines::replay_limited(&mut rt.reader(), |input, tally| {
        let head: [u8; 136] = lines::read(input)?;
        tally.count(word_at(&head, 0), next_agrees(input, &head));
        Some(())
    });
    tally.report(&mut output, 0, &["read_obj", "write_obj"])?;
    if limits::limits() {
        writeln!(output, "limits of V and F, long lines: as they should be")?;
    }
    Ok(())
}
