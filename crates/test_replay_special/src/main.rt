// Replays the list of the reference build's answers of R_F, R_D, R_J, complete_elliptic, cel and ring that
// stands in the file stdin: on each line the call's number, four arguments and three numbers of the
// answer, zeros where there are fewer. Prints for each call how many lines were compared and how many
// differ.
#![tactic(auto)]

use refusals::Refusal;
use rings::{Complete, RingAverage};
use std::io;
use test_replay::runs::{Numbers, refused};
use test_replay::{double_at, from_place, lines, runs, word_at};

fn integral(answer: Result<f64, Refusal>) -> Numbers {
    answer.map_or_else(refused, |v| [doubles::to_bits(v), 0, 0])
}

fn complete(answer: Result<Complete, Refusal>) -> Numbers {
    answer.map_or_else(
        refused,
        |c| [doubles::to_bits(c.k), doubles::to_bits(c.e), 0],
    )
}

fn average(answer: Result<RingAverage, Refusal>) -> Numbers {
    answer.map_or_else(refused, |a| [a.v, a.drho, a.dz].map(doubles::to_bits))
}

// The answer of the call to the line's arguments. A number of the list is met here alone: an enum of the calls would be matched twice. Another
// call's answer is that of the last: its lines are not reported.
fn answer(line: &[u8]) -> Numbers {
    let x = double_at(line, 1);
    let y = double_at(line, 2);
    let z = double_at(line, 3);
    let p = double_at(line, 4);
    match word_at(line, 0) {
        1 => integral(special::carlson_rf(x, y, z)),
        2 => integral(special::carlson_rd(x, y, z)),
        3 => integral(special::carlson_rj(x, y, z, p)),
        4 => complete(rings::complete_elliptic(x)),
        5 => integral(rings::cel(x, y, z, p)),
        _ => average(rings::ring(x, y, z)),
    }
}

fn main(rt: HostRuntime) -> io::Result<()> {
    let tally = lines::replay_limited(&mut rt.reader(), |input, tally| {
        let line: [u8; 136] = lines::read(input)?;
        tally.count(
            word_at(&line, 0),
            runs::same_words(from_place(&line, 5), &answer(&line)),
        );
        Some(())
    });
    tally.report(
        &mut io::writer(&rt),
        1,
        &["rf", "rd", "rj", "complete_elliptic", "cel", "ring"],
    )
}
