// The input of the programs that read a sheet: up to 65,536 bytes, and one more to tell longer input.
#![tactic(auto)]

ghost use Rattle.std.specs.Prelude.{◌≤◌, length, IfOk};

use std::io;
use std::io::{Error, ErrorKind, Read};

pub const MAX_INPUT: usize = 65536;

// One read, made again where a signal interrupted it: that is no failure. A proved loop has to end, so the repeats are counted up to a number that no run
// uses up; past it the read counts as failed.
fn read_once(reader: &mut impl Read, buf: &mut [u8]) -> io::Result<usize>
    ensures { IfOk result (λ n. n ≤ length buf.old) }
{
    for _ in 0..u64::MAX {
        match reader.read(buf) {
            Err(error) if error.kind() == ErrorKind::Interrupted => {}
            outcome => return outcome,
        }
    }
    Err(Error::from(ErrorKind::Interrupted))
}

// Reads to the end of the input or of buf, and answers how many bytes came. A `while`, since a read decides how far the next begins.
fn read_to_end(reader: &mut impl Read, buf: &mut [u8]) -> io::Result<usize> {
    let mut done = 0;
    while done < buf.len() {
        let n = read_once(reader, &mut buf[done..])?;
        if n == 0 {
            break;
        }
        done += n;
    }
    Ok(done)
}

// Reads to the end of the input or of buf, and answers how many bytes came; None where a read failed before that, which it says on standard error, with the
// reason. Where nothing can be written there, nothing is said.
pub fn read_input(
    rt: &impl Eprint,
    reader: &mut impl Read,
    buf: &mut [u8; MAX_INPUT + 1],
) -> Option<usize> {
    match read_to_end(reader, buf) {
        Ok(n) => Some(n),
        Err(error) => {
            let _ = eprintln!(rt; "input: {error}");
            None
        }
    }
}
