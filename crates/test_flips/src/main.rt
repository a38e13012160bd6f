// Flips every bit of the sheets in the file stdin, each after its length in 4 bytes, one bit after the other. For
// each sheet it prints the verdict on the sheet itself, and how many of the flipped ones the checker accepts: those
// with a bit flipped in what was given (kind, counts, body, magnetisation, ambient field, stations), which may be
// the sheet of another input, and those with a bit flipped in the rest. An accepted one has to be, byte for byte,
// what the writer writes of the input that it holds: it prints for how many that is so.
#![tactic(auto)]

ghost use Rattle.std.specs.Prelude.{◌<◌, length};

use sheet::{CORNERS_LENGTH, FACE_LENGTH, STATION_LENGTH, TRAILER_LENGTH, VERTEX_LENGTH};
use sheet_readers::TrailerFields;
use std::io;
use std::io::{Read, Write};
use test_replay::lines;

// Whether byte i of a sheet was given, as are vertices and faces, stations, and the trailer's first 64 bytes.
fn was_given(sheet: &[u8], i: usize) -> bool {
    let Some(at) = sheet.len().checked_sub(TRAILER_LENGTH) else {
        return false;
    };
    if at <= i {
        return i < at + 64;
    }
    let t = TrailerFields::read(sheet);
    let v = t.vertices as usize;
    let f = t.faces as usize;
    let s = t.stations as usize;
    let orders = VERTEX_LENGTH * v + CORNERS_LENGTH * f;
    let stations = VERTEX_LENGTH * v + FACE_LENGTH * f;
    i < orders || (stations <= i && i < stations + STATION_LENGTH * s)
}

// Of the sheets with a bit flipped in one part: how many are accepted, and how many of these the writer writes anew.
#[derive(Clone, Copy, Default)]
struct Part {
    accepted: u64,
    anew: u64,
}

impl Part {
    fn count(&mut self, sheet: &[u8]) {
        if checker::check_sheet(sheet).is_ok() {
            self.accepted = self.accepted.wrapping_add(1);
            if test_rewrite::is_rewritten(sheet) {
                self.anew = self.anew.wrapping_add(1);
            }
        }
    }

    fn report(&self, output: &mut impl Write) -> io::Result<()> {
        let Part { accepted, anew } = *self;
        write!(
            output,
            "{accepted} accepted, of which the writer writes anew {anew}"
        )
    }
}

// The sheets with a bit flipped in what was given, and in the rest.
#[derive(Clone, Copy, Default)]
struct Flips {
    given: Part,
    rest: Part,
}

impl Flips {
    // Counts the sheet with bit k of byte i flipped. It is as it was afterwards.
    fn flip(&mut self, sheet: &mut [u8], i: usize, k: u8)
        requires { (i < length sheet.old) × (k < 8) }
    {
        let was_given = was_given(sheet, i);
        sheet[i] ^= 1u8 << k;
        if was_given {
            self.given.count(sheet);
        } else {
            self.rest.count(sheet);
        }
        sheet[i] ^= 1u8 << k;
    }

    // All sheets with one bit flipped, by the bit's number: over the sheet's bytes a loop could not change and check the whole sheet.
    fn of(sheet: &mut [u8]) -> Flips {
        let mut flips = Flips::default();
        for j in 0..sheet.len().saturating_mul(8) {
            flips.flip(sheet, j / 8, (j % 8) as u8);
        }
        flips
    }
}

fn report(output: &mut impl Write, sheet: &mut [u8]) -> io::Result<()> {
    let length = sheet.len();
    let verdict = if checker::check_sheet(sheet).is_ok() {
        "accepted"
    } else {
        "refused"
    };
    write!(
        output,
        "{length} bytes, {verdict}; with a bit flipped in what was given: "
    )?;
    let flips = Flips::of(sheet);
    flips.given.report(output)?;
    write!(output, "; in the rest: ")?;
    flips.rest.report(output)?;
    writeln!(output)
}

// Reads a sheet of that length, and reports on it. One that is shorter than a trailer, or is not there, is passed over.
fn next_sheet(input: &mut impl Read, output: &mut impl Write, length: u32) -> io::Result<()> {
    let mut bytes = [0; test_rewrite::ROOM];
    let sheet = &mut bytes[..lines::small(length)];
    if input.read_exact(sheet).is_err() || sheet.len() < TRAILER_LENGTH {
        return Ok(());
    }
    report(output, sheet)
}

fn main(rt: HostRuntime) -> io::Result<()> {
    let mut input = rt.reader();
    let mut output = io::writer(&rt);
    // A proved loop has to end: the sheets are counted up to a number that no list reaches.
    for _ in 0..1000usize {
        let Some(head) = lines::read(&mut input) else {
            break;
        };
        next_sheet(&mut input, &mut output, u32::from_le_bytes(head))?;
    }
    Ok(())
}
