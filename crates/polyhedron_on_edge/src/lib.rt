// The edges that give a logarithm that is not finite: keys, nine numbers for each, and a count.
#![tactic(auto)]

ghost use Rattle.std.specs.Prelude.{◌≡◌, [], List, ℕ, suc, ◌≢◌, ◌<◌, ◌≤◌, length, get_or, MatchOption, slice_index};
ghost use Rattle.newtonian.specs.Numbers.{hessian_of};
ghost use Rattle.polyhedron_on_edge.specs.OnEdge.{edge_limit, edge_key, Edge, add_matrices, add_dyad, infinite_entry, infinite_row, infinite_entries, add_infinite};
ghost use Rattle.polyhedron_on_edge.specs.Block.{dyad_in, HoldsEdgesIn};

use mesh_orders::edges::number;
use newtonian::{Hessian, Vector, add_vectors};

// Document 01's limit of the different edges that may give a logarithm that is not finite.
pub const EDGE_LIMIT: usize = 64;

// Nine numbers to an edge: EDGE_LIMIT * 9. Document 01 asks for one array of so many numbers, not for one of Hessians.
pub const BLOCK: usize = 576;

// The key of the edge between the vertices i and j.
#[tactic(auto, unfolding(crate::specs::OnEdge::edge_key))]
pub fn edge_key(i: u32, j: u32) -> u64
    ensures { result ≡ edge_key i j }
{
    if i < j { number(i, j) } else { number(j, i) }
}

#[tactic(auto, unfolding(crate::specs::OnEdge::add_matrices))]
fn add_matrices(a: Hessian, b: Hessian) -> Hessian
    ensures { result ≡ add_matrices a b }
{
    Hessian {
        x: add_vectors(a.x, b.x),
        y: add_vectors(a.y, b.y),
        z: add_vectors(a.z, b.z),
    }
}

// Between faces in one plane an edge's sum vanishes, and so does the term.
#[tactic(auto, unfolding(crate::specs::OnEdge::infinite_entry))]
fn infinite_entry(t: f64, x: f64) -> f64
    ensures { result ≡ infinite_entry t x }
{
    if doubles::abs(x) > 1e-12 {
        t + x * f64::INFINITY
    } else {
        t
    }
}

fn infinite_row(t: Vector, e: Vector) -> Vector
    ensures { result ≡ infinite_row t e }
{
    Vector {
        x: infinite_entry(t.x, e.x),
        y: infinite_entry(t.y, e.y),
        z: infinite_entry(t.z, e.z),
    }
}

#[tactic(auto, unfolding(crate::specs::OnEdge::infinite_entries))]
fn infinite_entries(t: Hessian, e: Hessian) -> Hessian
    ensures { result ≡ infinite_entries t e }
{
    Hessian {
        x: infinite_row(t.x, e.x),
        y: infinite_row(t.y, e.y),
        z: infinite_row(t.z, e.z),
    }
}

// The Hessian with the entries that the first count edges of a block make infinite. Their keys may lie elsewhere.
pub fn add_infinite(t: Hessian, dyads: &[f64; BLOCK], count: usize) -> Hessian
    requires { count ≤ edge_limit }
    ensures { (es : List Edge) (keys : List ℕ) → HoldsEdgesIn es keys dyads.now count → result ≡ add_infinite es t }
{
    let (all, _) = dyads.as_chunks::<9>();
    let mut sums = t;
    for d in &all[..count] {
        sums = infinite_entries(sums, Hessian::from(*d));
    }
    sums
}

// The edges that a station has met, as a list of at most EDGE_LIMIT and the count of it; past the limit the count alone says
// that they are too many. Keys and dyads past the count are not read, so a walk may begin with whatever another left there.
#[derive(Clone, Copy)]
pub struct Edges {
    keys: [u64; EDGE_LIMIT],
    dyads: [f64; BLOCK],
    pub count: usize,
    ghost few: { count ≤ suc edge_limit },
}

impl Edges {
    ghost use Rattle.polyhedron_on_edge.specs.Held.{HoldsEdges};

    pub fn new() -> Edges
        ensures { HoldsEdges [] result }
    {
        Edges {
            keys: [0; EDGE_LIMIT],
            dyads: [0.0; BLOCK],
            count: 0,
        }
    }

    // The sums that the edges have, nine numbers to an edge.
    fn dyads(&self) -> &[[f64; 9]]
        ensures { (length result.now ≡ edge_limit) × ((i : ℕ) → i < edge_limit → hessian_of (get_or result.now i []) ≡ dyad_in self.now.dyads i) }
    {
        let (dyads, _) = self.dyads.as_chunks::<9>();
        dyads
    }

    // The block of those sums, lent: the count says how much of it to read.
    pub fn block(&self) -> &[f64; BLOCK]
        ensures { result.now ≡ self.now.dyads }
    {
        &self.dyads
    }

    // The sum that edge i has.
    fn dyad(&self, i: usize) -> Hessian
        requires { i < edge_limit }
        ensures { result ≡ dyad_in self.now.dyads i }
    {
        self.dyads()[i].into()
    }

    fn store(&mut self, i: usize, d: Hessian)
        requires { i < edge_limit }
        ensures keys { self.new.keys ≡ self.old.keys }
        ensures count { self.new.count ≡ self.old.count }
        ensures here { dyad_in self.new.dyads i ≡ d }
        ensures others { (j : ℕ) → j ≢ i → dyad_in self.new.dyads j ≡ dyad_in self.old.dyads j }
    {
        let n = i * 9;
        let numbers: [f64; 9] = d.into();
        self.dyads[n..n + 9].copy_from_slice(&numbers);
    }

    // The first place that holds key.
    fn find(&self, key: u64) -> Option<usize>
        requires { self.now.count ≤ edge_limit }
        ensures { MatchOption result ((j : ℕ) → j < self.now.count → slice_index self.now.keys j ≢ key)
            (λ at. (at < self.now.count) × (slice_index self.now.keys at ≡ key) × ((j : ℕ) → j < at → slice_index self.now.keys j ≢ key)) }
    {
        self.keys[..self.count].iter().position(|k| *k == key)
    }

    // Adds a face's dyad to the edge's sum, or the edge to the list.
    pub fn add(&mut self, key: u64, d: Hessian)
        ensures { (es : List Edge) → HoldsEdges es self.old → HoldsEdges (add_dyad key d es) self.new }
    {
        if EDGE_LIMIT < self.count {
            return;
        }
        if let Some(at) = self.find(key) {
            self.store(at, add_matrices(self.dyad(at), d));
            return;
        }
        if self.count < EDGE_LIMIT {
            self.keys[self.count] = key;
            self.store(self.count, d);
        }
        self.count += 1;
    }

    // The Hessian with the entries that the edges make infinite.
    pub fn add_infinite(&self, t: Hessian) -> Hessian
        requires { self.now.count ≤ edge_limit }
        ensures { (es : List Edge) → HoldsEdges es self.now → result ≡ add_infinite es t }
    {
        add_infinite(t, &self.dyads, self.count)
    }
}
