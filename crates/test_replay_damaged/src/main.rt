// Replays the damaged sheets in the file stdin: each after its length, and the number and the place of the
// refusal that it should have, in 4 bytes each. Then tries the limits of the counts. Prints how many sheets
// were checked, and how many have another answer.
#![tactic(auto)]

ghost use Rattle.std.specs.Prelude.{◌≤◌};

use sheet::{TRAILER_LENGTH, VERTEX_LENGTH};
use std::io;
use std::io::{Read, Write};
use test_replay::lines;

// The number and the place of the sheet's refusal, if it is refused.
fn refusal(sheet: &[u8]) -> Option<(u32, u32)> {
    let r = checker::check_sheet(sheet).err()?;
    Some((r.number(), r.place()))
}

// A sheet of one vertex more than the limit allows, and nothing else, has so many bytes.
const ROOM: usize = 480104;

// The refusal of a mesh of v vertices, all zeros, with no faces and no stations.
fn zeros(v: u32) -> Option<(u32, u32)>
    requires { v ≤ 20001 }
{
    let mut sheet = [0; ROOM];
    let at = VERTEX_LENGTH * v as usize;
    sheet_layout::put_u32(&mut sheet, at, 1);
    sheet_layout::put_u32(&mut sheet, at + 4, v);
    sheet_layout::put_u64(&mut sheet, at + 72, at as u64);
    refusal(&sheet[..at + TRAILER_LENGTH])
}

// V = 20,000 is within the limit: no faces is 8. One more is 2.
fn limits() -> bool {
    zeros(20000) == Some((8, 0)) && zeros(20001) == Some((2, 0))
}

// Whether the next sheet, which these length, number and place begin, is there and is refused by them.
fn next_is_refused(input: &mut impl Read, head: &[u8; 12]) -> bool {
    let mut bytes = [0; 16384];
    let sheet = &mut bytes[..lines::small(sheet_layout::u32_at(head, 0))];
    let number = sheet_layout::u32_at(head, 4);
    let place = sheet_layout::u32_at(head, 8);
    input.read_exact(sheet).is_ok() && refusal(sheet) == Some((number, place))
}

fn main(rt: HostRuntime) -> io::Result<()> {
    let mut output = io::writer(&rt);
    let tally = lines::replay_limited(&mut rt.reader(), |input, tally| {
        let head: [u8; 12] = lines::read(input)?;
        tally.count(0, next_is_refused(input, &head));
        Some(())
    });
    tally.report_as(&mut output, 0, &["damaged sheets"], "checked")?;
    if limits() {
        writeln!(output, "limit of V: as it should be")?;
    }
    Ok(())
}
