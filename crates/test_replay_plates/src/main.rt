// Replays the sheets of kind 2 over square plates in the file stdin: each after its length, and the number and
// the place of its refusal, in 4 bytes each. A sheet by the published choice among equal longest sides, the last,
// has 0 and 0: the checker has to accept it, and the writer to write it anew. Prints how many sheets of each
// number were checked, and how many have another answer.
#![tactic(auto)]

use std::io;
use std::io::Read;
use test_replay::lines;

// The number and the place of the sheet's refusal, or 0 and 0.
fn verdict(sheet: &[u8]) -> (u32, u32) {
    match checker::check_sheet(sheet) {
        Ok(_) => (0, 0),
        Err(r) => (r.number(), r.place()),
    }
}

// Whether the next sheet, which these length, number and place begin, is there, has that verdict, and is written anew where it is accepted.
fn next_holds(input: &mut impl Read, head: &[u8; 12]) -> bool {
    let mut bytes = [0; 16384];
    let sheet = &mut bytes[..lines::small(sheet_layout::u32_at(head, 0))];
    let number = sheet_layout::u32_at(head, 4);
    let place = sheet_layout::u32_at(head, 8);
    input.read_exact(sheet).is_ok()
        && verdict(sheet) == (number, place)
        && (number != 0 || test_rewrite::is_rewritten(sheet))
}

fn main(rt: HostRuntime) -> io::Result<()> {
    let tally = lines::replay_limited(&mut rt.reader(), |input, tally| {
        let head: [u8; 12] = lines::read(input)?;
        let line = match sheet_layout::u32_at(&head, 4) {
            0 => 0,
            10 => 1,
            20 => 2,
            _ => 3,
        };
        tally.count(line, next_holds(input, &head));
        Some(())
    });
    tally.report_as(
        &mut io::writer(&rt),
        0,
        &[
            "accepted",
            "refused by 10",
            "refused by 20",
            "refused by another number",
        ],
        "sheets",
    )
}
