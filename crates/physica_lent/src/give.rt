// Answers into lent numbers: each returns 0 and writes the answer's numbers, or returns the refusal's number.
ghost use Rattle.std.specs.Prelude.{◌≡◌};
ghost use Rattle.refusals.specs.Numbers.{values_of};
ghost use Rattle.physica_lent.specs.Exported.{nodes_of, weights_of, two, values_after, Gives, GivesValues, GivesCause};
ghost use Rattle.physica_lent.specs.Sheets.{trailer_counts, trailer_numbers};

use crate::numbers::Numbers;
use legendre::{MAX_ORDER, Rule};
use refusals::Refusal;
use sheet_readers::TrailerFields;

// The refusal's values, zeros after them.
fn values_of(r: Refusal) -> [u32; 2]
    ensures { result ≡ two (values_of r) }
{
    match r {
        Refusal::NoSuchVertex(place)
        | Refusal::Degenerate(place)
        | Refusal::TooDeep(place)
        | Refusal::TooManyEdges(place)
        | Refusal::NotFinite(place)
        | Refusal::WrongRow(place) => [place, 0],
        Refusal::Flipped(from, to) | Refusal::Open(from, to) => [from, to],
        Refusal::Malformed
        | Refusal::TooMany
        | Refusal::OutOfLimits
        | Refusal::Inverted
        | Refusal::TooThin
        | Refusal::TooShort
        | Refusal::OutsideDomain
        | Refusal::TooManyRounds
        | Refusal::WrongLength
        | Refusal::WrongOrder
        | Refusal::WrongMate
        | Refusal::WrongVolume
        | Refusal::WrongLine
        | Refusal::TooManyDigits => [0, 0],
    }
}

// The values of a refused answer, zeros of any other.
fn put_values<A>(answer: &Result<A, Refusal>, values: &mut [u32; 2])
    ensures { values.new ≡ values_after answer.now }
{
    *values = match answer {
        Ok(_) => [0, 0],
        Err(r) => values_of(*r),
    };
}

pub fn give<A: Numbers<T>, T: Drop>(answer: Result<A, Refusal>, out: &mut T) -> u32
    ensures { Gives A.numbers answer result out.old out.new }
{
    match answer {
        Ok(a) => {
            *out = a.numbers();
            0
        }
        Err(r) => r.number(),
    }
}

// With the refusal's values.
pub fn give_values<A: Numbers<T>, T: Drop>(
    answer: Result<A, Refusal>,
    out: &mut T,
    values: &mut [u32; 2],
) -> u32
    ensures { GivesValues A.numbers answer result out.old out.new values.new }
{
    put_values(&answer, values);
    give(answer, out)
}

pub fn give_cause(cause: Result<(), Refusal>, values: &mut [u32; 2]) -> u32
    ensures { GivesCause cause result values.new }
{
    give_values(cause, &mut (), values)
}

// Two lists are lent here and below, so that `Numbers`, which has one, does not serve.
pub fn give_rule(
    answer: Result<Rule, Refusal>,
    nodes: &mut [f64; MAX_ORDER],
    weights: &mut [f64; MAX_ORDER],
) -> u32
    ensures nodes { Gives nodes_of answer result nodes.old nodes.new }
    ensures weights { Gives weights_of answer result weights.old weights.new }
{
    match answer {
        Ok(rule) => {
            let n = rule.nodes;
            let w = rule.weights;
            *nodes = n;
            *weights = w;
            0
        }
        Err(r) => r.number(),
    }
}

pub fn give_trailer(
    answer: Result<TrailerFields, Refusal>,
    counts: &mut [u32; 4],
    numbers: &mut [f64; 7],
) -> u32
    ensures counts { Gives trailer_counts answer result counts.old counts.new }
    ensures numbers { Gives trailer_numbers answer result numbers.old numbers.new }
{
    match answer {
        Ok(t) => {
            let m = t.magnetisation;
            let b = t.ambient;
            *counts = [t.kind, t.vertices, t.faces, t.stations];
            *numbers = [m.x, m.y, m.z, b.x, b.y, b.z, t.volume];
            0
        }
        Err(r) => r.number(),
    }
}
