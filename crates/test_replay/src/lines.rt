// Goes through a list, line by line, and counts how many lines of each call were compared, and how many differ.
ghost use Rattle.std.specs.Prelude.{◌≤◌};

use crate::runs::Lengths;
use std::io;
use std::io::{Read, Write};

// How many lines of a call were compared, and how many of them differ.
#[derive(Clone, Copy, Default)]
struct Count {
    compared: u64,
    differ: u64,
}

impl Count {
    // One line more. The bool is what is counted, the line's outcome.
    fn add(&mut self, agrees: bool) {
        self.compared = self.compared.wrapping_add(1);
        if !agrees {
            self.differ = self.differ.wrapping_add(1);
        }
    }
}

// The counts of the calls that a list numbers from 0 to 7.
#[derive(Clone, Copy, Default)]
pub struct Tally {
    calls: [Count; 8],
}

impl Tally {
    // One line more of the call, which agrees or differs. A line of no such call counts nowhere.
    pub fn count(&mut self, call: u64, agrees: bool) {
        let Ok(i) = usize::try_from(call) else {
            return;
        };
        if let Some(counted) = self.calls.get_mut(i) {
            counted.add(agrees);
        }
    }

    // Prints a line for each name, of the calls from `first` on: the name, how many, what was done with them, how many differ.
    pub fn report_as(
        &self,
        output: &mut impl Write,
        first: usize,
        names: &[&str],
        done: &str,
    ) -> io::Result<()> {
        for (count, name) in self.calls.iter().skip(first).zip(names) {
            let Count { compared, differ } = *count;
            writeln!(output, "{name}: {compared} {done}, {differ} differ")?;
        }
        Ok(())
    }

    pub fn report(&self, output: &mut impl Write, first: usize, names: &[&str]) -> io::Result<()> {
        self.report_as(output, first, names, "compared")
    }
}

// The next N bytes of the list, None where there are fewer, or a read fails.
pub fn read<const N: usize>(input: &mut impl Read) -> Option<[u8; N]> {
    let mut bytes = [0u8; N];
    input.read_exact(&mut bytes).ok()?;
    Some(bytes)
}

// Goes through a list, of which `next` reads and counts a line, until it finds none.
pub fn replay<R: Read, F: FnMut(&mut R, &mut Tally) -> Option<()>>(
    input: &mut R,
    mut next: F,
) -> Tally
    requires callable { F.IsAlwaysCallable next }
{
    let mut tally = Tally::default();
    // A proved loop has to end: the turns are counted up to a number that no list reaches.
    for _ in 0..u64::MAX {
        if next(input, &mut tally).is_none() {
            break;
        }
    }
    tally
}

// At most so many lines of a list are replayed by the programs, and what follows them is not read: an input without end has a report too.
const MOST_LINES: usize = 1_000_000;

// Goes through a list's first MOST_LINES lines, or until it finds none.
pub fn replay_limited<R: Read, F: FnMut(&mut R, &mut Tally) -> Option<()>>(
    input: &mut R,
    mut next: F,
) -> Tally
    requires { F.IsAlwaysCallable next }
{
    let mut tally = Tally::default();
    for _ in 0..MOST_LINES {
        if next(input, &mut tally).is_none() {
            break;
        }
    }
    tally
}

// Reads the rest of a line, which has lists of these lengths and `more` numbers besides, and answers whether it is there and agrees.
pub fn next_agrees<F: Fn(&[u8], Lengths) -> bool>(
    input: &mut impl Read,
    lengths: Lengths,
    more: usize,
    agrees: F,
) -> bool
    requires few { more ≤ 16 }
    requires callable { F.IsAlwaysCallable agrees }
{
    let numbers = lengths.vertices + lengths.faces + lengths.work + more;
    let mut bytes = [0; 65536];
    let line = &mut bytes[..17 * numbers];
    input.read_exact(line).is_ok() && agrees(line, lengths)
}

// A length that a list gives, if it is within 16,384, else 0.
pub fn small(n: u32) -> usize
    ensures { result ≤ 16384 }
{
    if n <= 16384 { n as usize } else { 0 }
}

#[cfg(test)]
mod tests {
    use super::*;

    #[test]
    fn more_lines_than_the_programs_replay(rt: HostRuntime) {
        let mut list: &[u8] = &[];
        let mut left = 1_000_001u64;
        let tally = replay(&mut list, |_, tally| {
            left = left.checked_sub(1)?;
            tally.count(0, true);
            Some(())
        });
        assert_eq!(rt; tally.calls[0].compared, 1_000_001);
    }

    #[test]
    fn a_list_without_end(rt: HostRuntime) {
        let mut list: &[u8] = &[];
        let tally = replay_limited(&mut list, |_, tally| {
            tally.count(0, true);
            Some(())
        });
        assert_eq!(rt; tally.calls[0].compared, 1_000_000);
    }
}
