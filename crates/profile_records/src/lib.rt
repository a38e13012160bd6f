// The records of a block of stations, stored one after the other up to the first station that is refused.
#![tactic(auto)]

ghost use Rattle.std.specs.Prelude.{◌≡◌, List, ℕ, ◌+◌, ◌*◌, ◌≤◌, ◌<◌, Float, length, get_or};
ghost use Rattle.refusals.specs.Answer.{Answer};
ghost use Rattle.newtonian.specs.Vectors.{field_size};
ghost use Rattle.newtonian.specs.declared.Newtonian.{Newtonian};
ghost use Rattle.polyhedron_fields.specs.BlockFields.{no_field};
ghost use Rattle.profile_records.specs.Records.{Written, Stored};

use newtonian::{FIELD_SIZE, Newtonian};
use refusals::Refusal;

// Stores the record of station i, where its answer is a field.
pub fn store_record(
    i: usize,
    answer: Result<Newtonian, Refusal>,
    fields: &mut [f64],
) -> Result<(), Refusal>
    requires { field_size * (i + 1) ≤ length fields.old }
    ensures fields_len_unchanged { length fields.new ≡ length fields.old }
    ensures by_index { (a : ℕ → Answer Newtonian) (o : List Float) → a i ≡ answer → Written a i o fields.old → Stored a (i + 1) o result fields.new }
{
    let numbers = <[f64; FIELD_SIZE]>::from(answer?);
    let at = FIELD_SIZE * i;
    fields[at..at + FIELD_SIZE].copy_from_slice(&numbers);
    Ok(())
}

// Stores the records of consecutive stations, of which the first has the number first, up to the first station that is refused.
pub fn store(
    first: usize,
    answers: &[Result<Newtonian, Refusal>],
    fields: &mut [f64],
) -> Result<(), Refusal>
    requires { field_size * (first + length answers.now) ≤ length fields.old }
    ensures fields_len_unchanged { length fields.new ≡ length fields.old }
    ensures by_index { (a : ℕ → Answer Newtonian) (o : List Float) → ((j : ℕ) → j < length answers.now → a (first + j) ≡ get_or answers.now j no_field) →
        Written a first o fields.old → Stored a (first + length answers.now) o result fields.new }
{
    for (j, answer) in answers.iter().enumerate() {
        store_record(first + j, *answer, fields)?;
    }
    Ok(())
}
