// The checker's scans of a sheet's order list and mates, once the order list is read. The mates are judged where they stand in the sheet, so that the scans take their bytes,
// and the mates of a face together, by its first use.
#![tactic(auto)]

ghost use Rattle.std.specs.Prelude.{◌≡◌, true, ◌&&◌, ◌||◌, ◌+◌, ◌*◌, ◌%◌, ◌≤◌, ◌<◌, eqb, ltb, length, get_or};
ghost use Rattle.refusals.specs.Causes.{or_else};
ghost use Rattle.mesh_orders.specs.Edges.{max_faces, edge_number, edge, from};
ghost use Rattle.sheet_layout.specs.LittleEndian.{unpack};
ghost use Rattle.sheet.specs.Checker.{wrong_order, wrong_mate};
ghost use Rattle.checker_order.specs.Reverses.{Listed, mates_of, reverses};
ghost use Rattle.checker_order.specs.Paired.{PairedFace, Paired};
ghost use Rattle.checker_order.specs.EdgesGiven.{GivesEdges};

use mesh_orders::edges::{edge, number};
use refusals::Refusal;
use sheet_layout::u32_at;

// A face list with the bytes of its mates.
#[derive(Clone, Copy)]
struct MatedFaces<'a> {
    faces: &'a [u32],
    mates: &'a [u8],
    ghost whole: { length faces.now % 3 ≡ 0 },
    ghost few: { length faces.now ≤ 3 * max_faces },
    ghost room: { length mates.now ≡ 4 * length faces.now },
}

// Whether edge e, at place i of the order list, is above the last one, if there is one.
fn is_above(i: usize, last: u64, e: u64) -> bool
    ensures { result ≡ (eqb i 0 || ltb last e) }
{
    i == 0 || last < e
}

impl<'a> MatedFaces<'a> {
    // The mate of use k.
    fn mate(self, k: usize) -> u32
        requires { k < length self.faces.now }
        ensures { result ≡ get_or (mates_of self.entry.faces.now self.entry.mates.now) k 0 }
    {
        u32_at(self.mates, 4 * k)
    }

    // Whether w is an edge use that leaves vertex x and has the mate u.
    fn points_back(self, u: usize, w: u32, x: u32) -> bool
        ensures { result ≡ true → (w < length self.entry.faces.now) × (from self.entry.faces.now w ≡ x) × (get_or (mates_of self.entry.faces.now self.entry.mates.now) w 0 ≡ u) }
    {
        let k = w as usize;
        k < self.faces.len() && self.faces[k] == x && self.mate(k) as usize == u
    }

    // Whether the mates of the three edge uses of a face, of which i is the first, are paired.
    fn is_paired(self, i: usize) -> bool
        requires { (i % 3 ≡ 0) × (i < length self.faces.now) }
        ensures { result ≡ true → PairedFace self.entry.faces.now (mates_of self.entry.faces.now self.entry.mates.now) i }
    {
        self.points_back(i, self.mate(i), self.faces[i + 1])
            && self.points_back(i + 1, self.mate(i + 1), self.faces[i + 2])
            && self.points_back(i + 2, self.mate(i + 2), self.faces[i])
    }

    fn all_paired(self) -> bool
        ensures { result ≡ true → Paired self.entry.faces.now (mates_of self.entry.faces.now self.entry.mates.now) }
    {
        for i in (0..self.faces.len()).step_by(3) {
            if !self.is_paired(i) {
                return false;
            }
        }
        true
    }

    // Whether the mate w is an edge use, of the edge (from, to).
    fn has_edge(self, w: u32, from: u32, to: u32) -> bool
        ensures { result ≡ (ltb w (length self.entry.faces.now) && eqb (edge self.entry.faces.now w) (edge_number from to)) }
    {
        (w as usize) < self.faces.len() && edge(self.faces, w) == number(from, to)
    }

    // Whether the mates of the three edge uses of a face, of which i is the first, are reverses.
    fn are_reverses(self, i: usize) -> bool
        requires { (i % 3 ≡ 0) × (i < length self.faces.now) }
        ensures { result ≡ reverses self.entry.faces.now (mates_of self.entry.faces.now self.entry.mates.now) i }
    {
        let a = self.faces[i];
        let b = self.faces[i + 1];
        let c = self.faces[i + 2];
        self.has_edge(self.mate(i), b, a)
            && self.has_edge(self.mate(i + 1), c, b)
            && self.has_edge(self.mate(i + 2), a, c)
    }

    // Cause 18: a mate that is no edge use, or not the reverse.
    fn wrong_mate(self) -> Result<(), Refusal>
        ensures { result ≡ wrong_mate self.entry.faces.now (mates_of self.entry.faces.now self.entry.mates.now) }
    {
        for i in (0..self.faces.len()).step_by(3) {
            if !self.are_reverses(i) {
                return Err(Refusal::WrongMate);
            }
        }
        Ok(())
    }

    // The edge of use u, by paired mates: the mate of u leaves the vertex that u reaches, and no division by 3 is needed to find it.
    fn edge_by_mate(self, u: u32) -> u64
        requires { (u < length self.faces.now) × Paired self.faces.now (mates_of self.faces.now self.mates.now) }
        ensures { result ≡ edge self.entry.faces.now u }
    {
        let k = u as usize;
        number(self.faces[k], self.faces[self.mate(k) as usize])
    }
}

// Cause 17: an entry of the order list that is no edge use, or whose edge does not ascend strictly. `edge_of` gives the edge of a use.
fn wrong_order<F: Fn(u32) -> u64>(faces: &[u32], order: &[u32], edge_of: F) -> Result<(), Refusal>
    requires size { length order.now ≡ length faces.now }
    requires edges { GivesEdges (F.pre edge_of) (F.post edge_of) faces.now }
    ensures { result ≡ wrong_order faces.now order.now }
{
    let mut last = 0;
    for (i, &u) in order.iter().enumerate() {
        if faces.len() <= u as usize {
            return Err(Refusal::WrongOrder);
        }
        let e = edge_of(u);
        if !is_above(i, last, e) {
            return Err(Refusal::WrongOrder);
        }
        last = e;
    }
    Ok(())
}

// The causes 17 and 18, with the mates from place at on. Paired mates are reverses and give the edges; only where they are not paired is each tested as the definition has it.
pub fn wrong_lists(faces: &[u32], order: &[u32], sheet: &[u8], at: usize) -> Result<(), Refusal>
    requires { Listed faces.now order.now sheet.now at }
    ensures { result ≡ or_else (wrong_order faces.now order.now) (wrong_mate faces.now (unpack 4 (length faces.now) sheet.now at)) }
{
    let end = at + 4 * faces.len();
    let mated = MatedFaces {
        faces,
        mates: &sheet[at..end],
    };
    if mated.all_paired() {
        return wrong_order(faces, order, |u| mated.edge_by_mate(u));
    }
    wrong_order(faces, order, |u| edge(faces, u))?;
    mated.wrong_mate()
}
