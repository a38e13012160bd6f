// Neumaier's compensated summation, for the thirteen numbers of a field at once.
#![tactic(auto)]

ghost use Rattle.std.specs.Prelude.{◌≡◌, ◌+◌, ◌<◌};
ghost use Rattle.newtonian.specs.Vectors.{field_size};
ghost use Rattle.polyhedron_neumaier.specs.Neumaier.{add_term, add_terms, no_sums, total_at, total_vector, totals};

use newtonian::{FIELD_SIZE, Hessian, Newtonian, Vector};

// A sum, and what its roundings have lost.
#[derive(Clone, Copy)]
pub struct Pair {
    pub sum: f64,
    pub carry: f64,
}

impl Pair {
    fn add(&mut self, x: f64)
        ensures { self.new ≡ add_term self.old x }
    {
        let next = self.sum + x;
        let loss = if doubles::abs(self.sum) >= doubles::abs(x) {
            (self.sum - next) + x
        } else {
            (x - next) + self.sum
        };
        self.carry += loss;
        self.sum = next;
    }
}

// A sum for each number of a field.
#[derive(Clone, Copy)]
pub struct Sums {
    pub pairs: [Pair; FIELD_SIZE],
}

impl Sums {
    // The sums before the first term.
    #[tactic(auto, unfolding(crate::specs::Neumaier::no_sums))]
    pub fn new() -> Self
        ensures { result.pairs ≡ no_sums }
    {
        Sums {
            pairs: [Pair {
                sum: 0.0,
                carry: 0.0,
            }; FIELD_SIZE],
        }
    }

    // A term to each sum.
    pub fn add(&mut self, terms: &[f64; FIELD_SIZE])
        ensures { self.new.pairs ≡ add_terms self.old.pairs terms.now }
    {
        for (k, pair) in self.pairs.iter_mut().enumerate() {
            pair.add(terms[k]);
        }
    }

    #[tactic(auto, unfolding(crate::specs::Neumaier::total_at))]
    fn total_at(&self, k: usize) -> f64
        requires { k < field_size }
        ensures { result ≡ total_at self.now.pairs k }
    {
        let p = self.pairs[k];
        p.sum + p.carry
    }

    // Three sums, from sum k on.
    #[tactic(auto, unfolding(crate::specs::Neumaier::total_vector))]
    fn total_vector(&self, k: usize) -> Vector
        requires { k + 2 < field_size }
        ensures { result ≡ total_vector self.now.pairs k }
    {
        Vector {
            x: self.total_at(k),
            y: self.total_at(k + 1),
            z: self.total_at(k + 2),
        }
    }

    // The field whose numbers the sums are, with what they have lost.
    #[tactic(auto, unfolding(crate::specs::Neumaier::totals))]
    pub fn total(&self) -> Newtonian
        ensures { result ≡ totals self.now.pairs }
    {
        Newtonian {
            potential: self.total_at(0),
            gradient: self.total_vector(1),
            hessian: Hessian {
                x: self.total_vector(4),
                y: self.total_vector(7),
                z: self.total_vector(10),
            },
        }
    }
}
