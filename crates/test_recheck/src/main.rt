// Runs what the program `recheck` runs on the files in data/, on a directory and on a reader of which every read fails. Prints for each its
// name, how many bytes were read, or that a read failed, and the line of `recheck`, which is handed the same bytes in short reads with
// interrupted ones between. The file longest is the sheet of the tetrahedron T with four vertices that no face uses and 740 times one
// station; too_long has one byte more.
#![tactic(auto)]

use recheck_input::MAX_INPUT;
use std::io::{Error, ErrorKind, Read};
use std::rt::Files;
use std::{fs, io};

// At most so many bytes come of a short read.
const SHORT: usize = 1000;

// Interrupts every other read, and makes the reads between them short.
#[derive(Drop)]
struct Halting<R> {
    reader: R,
    is_interrupted: bool,
}

impl<R: Read> Read for Halting<R> {
    fn read(&mut self, buf: &mut [u8]) -> io::Result<usize> {
        self.is_interrupted = !self.is_interrupted;
        if self.is_interrupted {
            return Err(Error::from(ErrorKind::Interrupted));
        }
        let most = buf.len().min(SHORT);
        self.reader.read(&mut buf[..most])
    }
}

// The error of a descriptor that is not open.
const NOT_OPEN: i32 = 9;

#[derive(Drop)]
struct NoDescriptor;

impl Read for NoDescriptor {
    fn read(&mut self, _buf: &mut [u8]) -> io::Result<usize> {
        Err(Error::from_raw_os_error(NOT_OPEN))
    }
}

fn print_length(rt: &(impl Print + Eprint), reader: &mut impl Read) -> io::Result<()> {
    let mut buffer = [0u8; MAX_INPUT + 1];
    match recheck_input::read_input(rt, reader, &mut buffer) {
        Some(n) => print!(rt; "{n} bytes: "),
        None => print!(rt; "a read failed: "),
    }
}

fn print_line<R: Read>(rt: &(impl Print + Eprint), reader: R) -> io::Result<()>
where
    R: Drop,
{
    let mut halting = Halting {
        reader,
        is_interrupted: false,
    };
    recheck_line::recheck(rt, &mut halting, &mut io::writer(rt))
}

// A file that cannot be opened has no line.
fn try_file(rt: &(impl Files + Print + Eprint), path: &str) -> io::Result<()> {
    let mut first = fs::open(rt, path)?;
    print!(rt; "{path}, ")?;
    print_length(rt, &mut first)?;
    print_line(rt, fs::open(rt, path)?)
}

fn main(rt: HostRuntime) -> io::Result<()> {
    try_file(&rt, "tetrahedron")?;
    try_file(&rt, "wrong_row")?;
    try_file(&rt, "longest")?;
    try_file(&rt, "too_long")?;
    try_file(&rt, "empty")?;
    try_file(&rt, ".")?;
    print!(rt; "no descriptor, ")?;
    print_length(&rt, &mut NoDescriptor)?;
    print_line(&rt, NoDescriptor)
}
