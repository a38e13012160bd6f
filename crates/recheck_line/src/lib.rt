// The line that `recheck` prints.
#![tactic(auto)]

ghost use Rattle.std.specs.Prelude.{◌≡◌, ◌+◌, ◌≤◌, ◌<◌, length, take};
ghost use Rattle.std.proofs.lemmas.List.Edits.{sets};
ghost use Rattle.sheet.specs.Checker.{verdict_answer};
ghost use Rattle.recheck_line.specs.Line.{decimal, line_of, line_room, answer_line, max_input, recheck_line, input_line, LineAtStart};

use itoa::Buffer;
use recheck_input::MAX_INPUT;
use refusals::Refusal;
use sheet::Accepted;
use std::io;
use std::io::{Read, Write};

// Writes text from place at on.
fn put(out: &mut [u8], at: usize, text: &[u8])
    requires { at + length text.now ≤ length out.old }
    ensures { out.new ≡ sets out.old at text.now }
{
    out[at..at + text.len()].copy_from_slice(text);
}

// Writes n's digits from place at on, and answers how many there are.
fn put_decimal(out: &mut [u8], at: usize, n: u32) -> usize
    requires { at + 20 ≤ length out.old }
    ensures value { (result ≡ length (decimal n)) × (result ≤ 20) }
    ensures out_after { out.new ≡ sets out.old at (decimal n) }
{
    let mut buffer = Buffer::new();
    let digits = buffer.format(n).as_bytes();
    put(out, at, digits);
    digits.len()
}

// Writes a word, two numbers and the line's end, and answers how many bytes that is.
fn put_line(out: &mut [u8], word: &[u8], x: u32, y: u32) -> usize
    requires { length word.now + 42 ≤ length out.old }
    ensures { LineAtStart result out.new out.old (line_of word.now x y) }
{
    put(out, 0, word);
    let a = word.len();
    let b = a + put_decimal(out, a, x);
    put(out, b, b" ");
    let c = b + 1;
    let d = c + put_decimal(out, c, y);
    put(out, d, b"\n");
    d + 1
}

// Writes the line of a verdict at the start of out, and answers how many bytes it has. Room for a line is asked
// for, here and below: an array of one length, as a type, would ask more.
pub fn verdict_line(verdict: Result<Accepted, Refusal>, out: &mut [u8]) -> usize
    requires { line_room ≤ length out.old }
    ensures { LineAtStart result out.new out.old (answer_line (verdict_answer verdict)) }
{
    match verdict {
        Ok(accepted) => put_line(out, b"accepted ", accepted.kind, accepted.stations),
        Err(r) => put_line(out, b"refused ", r.number(), r.place()),
    }
}

// Writes the line that `recheck` prints of the first n bytes, which are all that was read.
#[tactic(auto, using(crate::proofs::Text::long_line, crate::proofs::Text::short_line))]
fn bytes_line(bytes: &[u8], n: usize, out: &mut [u8]) -> usize
    requires { (max_input < length bytes.now) × (line_room ≤ length out.old) }
    ensures { LineAtStart result out.new out.old (recheck_line (take n bytes.now)) }
{
    if MAX_INPUT < n {
        return verdict_line(Err(Refusal::TooMany), out);
    }
    verdict_line(checker::check_sheet(&bytes[..n]), out)
}

// Writes the line that `recheck` prints of its input, which stands at the start of buffer, at the start of out, and answers how many bytes it has. Input that
// a failed read cut off is refused by 16: the sheet is not there whole.
pub fn recheck_line(buffer: &[u8; MAX_INPUT + 1], input: Option<usize>, out: &mut [u8]) -> usize
    requires { line_room ≤ length out.old }
    ensures { LineAtStart result out.new out.old (input_line input buffer.now) }
{
    match input {
        Some(n) => bytes_line(buffer, n, out),
        None => verdict_line(Err(Refusal::WrongLength), out),
    }
}

// The program `recheck`, whole: reads a sheet from the reader `input`, and writes its line to the writer `output`. Says on standard error why a read failed.
pub fn recheck(rt: &impl Eprint, input: &mut impl Read, output: &mut impl Write) -> io::Result<()> {
    let mut buffer = [0u8; MAX_INPUT + 1];
    let read = recheck_input::read_input(rt, input, &mut buffer);
    let mut line = [0u8; 64];
    let k = recheck_line(&buffer, read, &mut line);
    output.write_all(&line[..k])
}
