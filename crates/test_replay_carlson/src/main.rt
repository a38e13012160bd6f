// Replays the list of the reference build's answers of R_C, ln, atan and atan2 that stands in the file
// stdin: on each line the call's number, its arguments and the answer. Prints for each call how many
// lines were compared and how many differ.
#![tactic(auto)]

use std::io;
use test_replay::{double_at, lines, word_at};

fn rc(x: f64, y: f64) -> u64 {
    carlson::carlson_rc(x, y).map_or_else(test_replay::refused, doubles::to_bits)
}

// The answer of the call to the line's arguments. A number of the list is met here alone: an enum of the calls would be matched twice. Another
// call's answer is that of the last: its lines are not reported.
fn answer(line: &[u8]) -> u64 {
    let x = double_at(line, 1);
    let y = double_at(line, 2);
    match word_at(line, 0) {
        1 => rc(x, y),
        2 => doubles::to_bits(carlson::ln(x)),
        3 => doubles::to_bits(carlson::atan(x)),
        _ => doubles::to_bits(carlson::atan2(x, y)),
    }
}

fn main(rt: HostRuntime) -> io::Result<()> {
    let tally = lines::replay_limited(&mut rt.reader(), |input, tally| {
        let line: [u8; 68] = lines::read(input)?;
        tally.count(word_at(&line, 0), word_at(&line, 3) == answer(&line));
        Some(())
    });
    tally.report(&mut io::writer(&rt), 1, &["rc", "ln", "atan", "atan2"])
}
