// The program `recheck` again, on a refused sheet. It stands twice because a program is run on one input: a main that
// printed a constant would pass there and fail here.
#![tactic(auto)]

use std::io;

fn main(rt: HostRuntime) -> io::Result<()> {
    recheck_line::recheck(&rt, &mut rt.reader(), &mut io::writer(&rt))
}
