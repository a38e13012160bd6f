// The numbers of an answer, as a caller in C lends room for them: which ones, and in which order, is what an impl says. A vector's and a field's take `From` each: `From`
// says what it gives by a relation, and the calls' contracts name a function, `numbers`, which an impl over all of `From` could not give. For the others
// (`Complete`, `RingAverage`, `Accepted`, `Counts`) an impl that gives a function would be needed all the same, so that a `From` would be a second one beside it.
ghost use Rattle.std.specs.Prelude.{◌≡◌};
ghost use Rattle.newtonian.specs.Vectors.{vector_numbers, field_numbers};
ghost use Rattle.physica_lent.specs.Exported.{itself, complete_numbers, ring_numbers, accepted_numbers, count_numbers};

use newtonian::{FIELD_SIZE, Newtonian, Vector};
use obj::Counts;
use rings::{Complete, RingAverage};
use sheet::Accepted;

pub trait Numbers<T> {
    ghost numbers: { Self → T };

    fn numbers(self) -> T
        ensures { result ≡ numbers self };
}

// A number is its own.
impl<T> Numbers<T> for T {
    ghost numbers = { itself };

    fn numbers(self) -> T {
        self
    }
}

impl Numbers<[f64; 3]> for Vector {
    ghost numbers = { vector_numbers };

    fn numbers(self) -> [f64; 3] {
        <[f64; 3]>::from(self)
    }
}

impl Numbers<[f64; FIELD_SIZE]> for Newtonian {
    ghost numbers = { field_numbers };

    fn numbers(self) -> [f64; FIELD_SIZE] {
        <[f64; FIELD_SIZE]>::from(self)
    }
}

impl Numbers<[f64; 2]> for Complete {
    ghost numbers = { complete_numbers };

    fn numbers(self) -> [f64; 2] {
        [self.k, self.e]
    }
}

impl Numbers<[f64; 3]> for RingAverage {
    ghost numbers = { ring_numbers };

    fn numbers(self) -> [f64; 3] {
        [self.v, self.drho, self.dz]
    }
}

impl Numbers<[u32; 2]> for Accepted {
    ghost numbers = { accepted_numbers };

    fn numbers(self) -> [u32; 2] {
        [self.kind, self.stations]
    }
}

impl Numbers<[u32; 2]> for Counts {
    ghost numbers = { count_numbers };

    fn numbers(self) -> [u32; 2] {
        [self.vertices, self.faces]
    }
}
