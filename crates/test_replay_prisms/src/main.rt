// Replays the list of the reference build's prisms that stands in the file stdin: on each line the
// station, min and max, and the answer's thirteen numbers, or a refusal N as 0x7ff0000000000000 + N and
// zeros. Prints how many lines were compared and how many differ.
#![tactic(auto)]

use std::io;
use test_replay::{from_place, lines, runs, vector_at};

// Whether the line's answer is the answer to its arguments.
fn agrees(line: &[u8]) -> bool {
    let answer = prism::prism(vector_at(line, 0), vector_at(line, 3), vector_at(line, 6));
    let expected = from_place(line, 9);
    match answer {
        Ok(f) => runs::same_field(expected, f),
        Err(r) => runs::same_words(expected, &[test_replay::refused(r)]),
    }
}

fn main(rt: HostRuntime) -> io::Result<()> {
    let tally = lines::replay_limited(&mut rt.reader(), |input, tally| {
        let line: [u8; 374] = lines::read(input)?;
        tally.count(0, agrees(&line));
        Some(())
    });
    tally.report(&mut io::writer(&rt), 0, &["prism"])
}
