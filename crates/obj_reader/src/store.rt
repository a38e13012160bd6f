// The second walk over the lines: the numbers into the lent lists.
ghost use Rattle.std.specs.Prelude.{◌≡◌, ◌+◌, ◌≤◌, length, Ok};
ghost use Rattle.obj.specs.Reader.{vertices_of, faces_of, list_after};
ghost use Rattle.obj_reader.specs.Passes.{Storable, puts};

use obj::Line;
use obj_lines::line;
use refusals::Refusal;

// Three entries of a list.
fn put<T: Copy>(list: &mut [T], at: usize, three: [T; 3])
    requires { at + 3 ≤ length list.old }
    ensures { list.new ≡ puts list.old at three }
{
    list[at..at + 3].copy_from_slice(&three);
}

// The numbers of a text that no cause refuses, so that this does not either, into the front of the lists.
pub fn store(text: &[u8], verts: &mut [f64], faces: &mut [u32]) -> Result<(), Refusal>
    requires { Storable text.now (length verts.old) (length faces.old) }
    ensures answer { result ≡ Ok tt }
    ensures verts { verts.new ≡ list_after (Ok tt) (vertices_of text.now) verts.old }
    ensures faces { faces.new ≡ list_after (Ok tt) (faces_of text.now) faces.old }
{
    let mut v = 0;
    let mut f = 0;
    for bytes in text.split(|b| *b == b'\n') {
        match line(bytes)? {
            Line::Vertex(x, y, z) => {
                put(verts, v, [x, y, z]);
                v += 3;
            }
            Line::Face(a, b, c) => {
                put(faces, f, [a as u32, b as u32, c as u32]);
                f += 3;
            }
            Line::Nothing => {}
        }
    }
    Ok(())
}
