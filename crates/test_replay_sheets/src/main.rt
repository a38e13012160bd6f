// Replays the sheets in the file stdin, each after its length in 4 bytes, which were made from document 01's
// text and the reference build's numbers. The checker has to accept each with its kind and S, and the writer,
// given what it holds, to write the same bytes and to leave those past them as they were. Prints how many
// sheets were compared, and how many differ.
#![tactic(auto)]

ghost use Rattle.std.specs.Prelude.{◌≤◌, length};

use sheet::{Accepted, TRAILER_LENGTH};
use sheet_readers::TrailerFields;
use std::io;
use std::io::Read;
use test_replay::lines;

// Whether the sheet is accepted with the kind and S that stand in its trailer.
fn is_accepted(sheet: &[u8]) -> bool
    requires { 80 ≤ length sheet.now }
{
    let t = TrailerFields::read(sheet);
    checker::check_sheet(sheet)
        == Ok(Accepted {
            kind: t.kind,
            stations: t.stations,
        })
}

// Whether the next sheet, of that length, is there, is accepted and is written anew.
fn next_holds(input: &mut impl Read, length: u32) -> bool {
    let mut bytes = [0; 16384];
    let sheet = &mut bytes[..lines::small(length)];
    input.read_exact(sheet).is_ok()
        && sheet.len() >= TRAILER_LENGTH
        && is_accepted(sheet)
        && test_rewrite::is_rewritten(sheet)
}

fn main(rt: HostRuntime) -> io::Result<()> {
    let tally = lines::replay_limited(&mut rt.reader(), |input, tally| {
        let head: [u8; 4] = lines::read(input)?;
        tally.count(0, next_holds(input, u32::from_le_bytes(head)));
        Some(())
    });
    tally.report_as(
        &mut io::writer(&rt),
        0,
        &["sheets"],
        "accepted and written anew",
    )
}
