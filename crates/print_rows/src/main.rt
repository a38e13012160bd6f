// Prints the rows of the sheet on standard input, of up to 65,536 bytes, one to a line: each number as
// the 16 hexadecimal digits of its bits. Prints nothing for longer input, where a read failed, or where
// 16, 1 or 2 refuses.
#![tactic(auto)]

use recheck_input::MAX_INPUT;
use std::io;

fn print_row(rt: &impl Print, row: &[u8]) -> io::Result<()> {
    let (numbers, _) = row.as_chunks::<8>();
    for (j, number) in numbers.iter().enumerate() {
        if j > 0 {
            print!(rt; " ")?;
        }
        let bits = u64::from_le_bytes(*number);
        print!(rt; "{bits:016x}")?;
    }
    println!(rt)
}

fn print_rows(rt: &impl Print, sheet: &[u8]) -> io::Result<()> {
    for row in sheet_handle::new(sheet) {
        print_row(rt, row)?;
    }
    Ok(())
}

fn main(rt: HostRuntime) -> io::Result<()> {
    let mut buffer = [0u8; MAX_INPUT + 1];
    match recheck_input::read_input(&rt, &mut rt.reader(), &mut buffer) {
        // input that fills the buffer is longer than a sheet may be
        Some(n) if n <= MAX_INPUT => print_rows(&rt, &buffer[..n]),
        _ => Ok(()),
    }
}
