// Replays the list of the reference build's square roots that stands in the file stdin: on each line a
// double's bits and its root's. Prints how many lines were compared and how many differ.
#![tactic(auto)]

use std::io;
use test_replay::{double_at, lines, word_at};

// Whether the line's second number is the root of the first.
fn agrees(line: &[u8]) -> bool {
    word_at(line, 1) == doubles::to_bits(roots::root(double_at(line, 0)))
}

fn main(rt: HostRuntime) -> io::Result<()> {
    let tally = lines::replay_limited(&mut rt.reader(), |input, tally| {
        let line: [u8; 34] = lines::read(input)?;
        tally.count(0, agrees(&line));
        Some(())
    });
    tally.report(&mut io::writer(&rt), 0, &["root"])
}
