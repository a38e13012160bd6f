// Replays the list of the reference build's answers of body, total_field, sphere, cylinder, ellipsoid_factors,
// magnetisation and koenigsberger that stands in the file stdin: on each line the call's number, sixteen
// arguments and three numbers of the answer, zeros where there are fewer. Prints for each call how many
// lines were compared and how many differ.
#![tactic(auto)]

ghost use Rattle.std.specs.Prelude.{◌≤◌};

use newtonian::{Hessian, Vector};
use refusals::Refusal;
use std::io;
use test_replay::runs::{Numbers, refused};
use test_replay::{double_at, from_place, lines, runs, vector_at, word_at};

// Nine numbers from place k on, row by row.
fn matrix_at(line: &[u8], k: usize) -> Hessian
    requires { k ≤ 8 }
{
    Hessian {
        x: vector_at(line, k),
        y: vector_at(line, k + 3),
        z: vector_at(line, k + 6),
    }
}

fn of_vector(answer: Result<Vector, Refusal>) -> Numbers {
    answer.map_or_else(refused, |v| <[f64; 3]>::from(v).map(doubles::to_bits))
}

fn of_number(answer: Result<f64, Refusal>) -> Numbers {
    answer.map_or_else(refused, |x| [doubles::to_bits(x), 0, 0])
}

fn body(line: &[u8]) -> Result<Vector, Refusal> {
    anomaly::body(matrix_at(line, 1), vector_at(line, 10))
}

fn total_field(line: &[u8]) -> Result<f64, Refusal> {
    anomaly::total_field(vector_at(line, 1), vector_at(line, 4))
}

fn sphere(line: &[u8]) -> Result<Vector, Refusal> {
    anomaly_sphere::sphere(
        vector_at(line, 1),
        vector_at(line, 4),
        double_at(line, 7),
        vector_at(line, 8),
    )
}

fn cylinder(line: &[u8]) -> Result<Vector, Refusal> {
    anomaly_cylinder::cylinder(
        vector_at(line, 1),
        vector_at(line, 4),
        vector_at(line, 7),
        double_at(line, 10),
        vector_at(line, 11),
    )
}

fn ellipsoid_factors(line: &[u8]) -> Result<Vector, Refusal> {
    demagnetisation::ellipsoid_factors(double_at(line, 1), double_at(line, 2), double_at(line, 3))
}

fn magnetisation(line: &[u8]) -> Result<Vector, Refusal> {
    demagnetisation::magnetisation(
        double_at(line, 1),
        vector_at(line, 2),
        vector_at(line, 5),
        matrix_at(line, 8),
    )
}

fn koenigsberger(line: &[u8]) -> Result<f64, Refusal> {
    demagnetisation::koenigsberger(vector_at(line, 1), double_at(line, 4), vector_at(line, 5))
}

// The answer of the call to the line's arguments. A number of the list is met here alone: an enum of the calls would be matched twice. Another
// call's answer is that of the last: its lines are not reported.
fn answer(line: &[u8]) -> Numbers {
    match word_at(line, 0) {
        1 => of_vector(body(line)),
        2 => of_number(total_field(line)),
        3 => of_vector(sphere(line)),
        4 => of_vector(cylinder(line)),
        5 => of_vector(ellipsoid_factors(line)),
        6 => of_vector(magnetisation(line)),
        _ => of_number(koenigsberger(line)),
    }
}

fn main(rt: HostRuntime) -> io::Result<()> {
    let tally = lines::replay_limited(&mut rt.reader(), |input, tally| {
        let line: [u8; 340] = lines::read(input)?;
        tally.count(
            word_at(&line, 0),
            runs::same_words(from_place(&line, 17), &answer(&line)),
        );
        Some(())
    });
    tally.report(
        &mut io::writer(&rt),
        1,
        &[
            "body",
            "total_field",
            "sphere",
            "cylinder",
            "ellipsoid_factors",
            "magnetisation",
            "koenigsberger",
        ],
    )
}
