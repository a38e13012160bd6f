// Reads a sheet of up to 65,536 bytes on standard input, and prints whether it is accepted. test_recheck_main has this main again, for another input, and says why.
#![tactic(auto)]

use std::io;

fn main(rt: HostRuntime) -> io::Result<()> {
    recheck_line::recheck(&rt, &mut rt.reader(), &mut io::writer(&rt))
}
