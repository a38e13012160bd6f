// The two calls on marked room: whether they answer, store and leave what they should.
use crate::marks;
use obj::Counts;
use refusals::Refusal;
use test_replay::runs;

// A refusal's number and its first value.
#[derive(Clone, Copy, PartialEq, Default)]
pub struct Refused {
    pub number: u64,
    pub value: u64,
}

impl Refused {
    // One that has no value.
    pub fn by(number: u64) -> Refused {
        Refused { number, value: 0 }
    }

    fn of(r: Refusal) -> Refused {
        Refused {
            number: u64::from(r.number()),
            value: runs::values(r)[0],
        }
    }
}

// A mesh as the lists that are read and written.
#[derive(Clone, Copy)]
pub struct Mesh<'a> {
    pub verts: &'a [f64],
    pub faces: &'a [u32],
}

impl Mesh<'_> {
    // Whether the counts are V and F, and the lists begin with those of the mesh and are as they were past them.
    fn is_read(self, counts: Counts, verts: &[f64], faces: &[u32]) -> bool {
        self.verts.len() / 3 == counts.vertices as usize
            && self.faces.len() / 3 == counts.faces as usize
            && marks::begins(verts, self.verts)
            && marks::kept(verts, self.verts.len())
            && marks::begins(faces, self.faces)
            && marks::kept(faces, self.faces.len())
    }
}

// Whether the text is read into the lists as the mesh, or refused so with the lists as they were.
pub fn reads(
    text: &[u8],
    verts: &mut [f64],
    faces: &mut [u32],
    wanted: Result<Mesh, Refused>,
) -> bool {
    marks::mark(verts);
    marks::mark(faces);
    match (obj_reader::read_obj(text, verts, faces), wanted) {
        (Ok(counts), Ok(mesh)) => mesh.is_read(counts, verts, faces),
        (Err(r), Err(refused)) => {
            Refused::of(r) == refused && marks::kept(verts, 0) && marks::kept(faces, 0)
        }
        _ => false,
    }
}

// Whether as many bytes of the mesh are written, or it is refused so, and the lent text is as it was past what is written.
pub fn writes(mesh: Mesh, text: &mut [u8], wanted: Result<usize, Refused>) -> bool {
    marks::mark(text);
    let written = obj_writer::write_obj(mesh.verts, mesh.faces, text).map_err(Refused::of);
    written == wanted && marks::kept(text, written.unwrap_or(0))
}
