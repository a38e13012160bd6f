// Runs of numbers in a list: vertices, faces, work, the numbers of a field.
ghost use Rattle.std.specs.Prelude.{◌≤◌};

use crate::{double_at, word_at};
use newtonian::{FIELD_SIZE, Newtonian};
use refusals::Refusal;

// The numbers of one vertex, and of one face, more than the limits allow.
pub const VERTEX_ROOM: usize = 60003;

pub const FACE_ROOM: usize = 98307;

// A length that a list gives, up to 1000.
pub fn length_at(s: &[u8], k: usize) -> usize
    ensures { result ≤ 1000 }
{
    word_at(s, k).min(1000) as usize
}

// The lengths of the lists of a line: vertices, faces and work.
#[derive(Clone, Copy)]
pub struct Lengths {
    pub vertices: usize,
    pub faces: usize,
    pub work: usize,
    pub ghost few_vertices: { vertices ≤ 1000 },
    pub ghost few_faces: { faces ≤ 1000 },
    pub ghost few_work: { work ≤ 1000 },
}

impl Lengths {
    // The first three numbers of the line.
    pub fn of(head: &[u8]) -> Self {
        Lengths {
            vertices: length_at(head, 0),
            faces: length_at(head, 1),
            work: length_at(head, 2),
        }
    }
}

// Reads as many doubles as xs holds, from the list's first on.
pub fn read_doubles(s: &[u8], xs: &mut [f64]) {
    for (i, x) in xs.iter_mut().enumerate() {
        *x = double_at(s, i);
    }
}

// Reads as many indices as xs holds, from the list's first number on, each up to its remainder by 2^32.
pub fn read_indices(s: &[u8], xs: &mut [u32]) {
    for (i, x) in xs.iter_mut().enumerate() {
        *x = (word_at(s, i) % 0x1_0000_0000) as u32;
    }
}

// What work holds at i before a call.
pub fn work_mark(i: usize) -> u32 {
    0xabcd_0000 + (i % 0x1_0000) as u32
}

pub fn mark(work: &mut [u32]) {
    for (i, entry) in work.iter_mut().enumerate() {
        *entry = work_mark(i);
    }
}

// Whether the list begins with these numbers.
pub fn same_words(s: &[u8], words: &[u64]) -> bool {
    words
        .iter()
        .enumerate()
        .all(|(i, word)| word_at(s, i) == *word)
}

// The three numbers of an answer, zeros where there are fewer.
pub type Numbers = [u64; 3];

// How a list writes a refusal as an answer.
pub fn refused(r: Refusal) -> Numbers {
    [crate::refused(r), 0, 0]
}

// Whether the list begins with the entries of work.
pub fn same_work(s: &[u8], work: &[u32]) -> bool {
    work.iter()
        .enumerate()
        .all(|(i, entry)| word_at(s, i) == u64::from(*entry))
}

// Whether the list begins with the field's thirteen numbers.
pub fn same_field(s: &[u8], f: Newtonian) -> bool {
    same_words(s, &<[f64; FIELD_SIZE]>::from(f).map(doubles::to_bits))
}

// The values of a refusal, 0 where there is none.
pub fn values(r: Refusal) -> [u64; 2] {
    match r {
        Refusal::Flipped(from, to) | Refusal::Open(from, to) => [from, to].map(u64::from),
        _ => [u64::from(r.place()), 0],
    }
}
