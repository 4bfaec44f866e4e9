//! Reads two head lines and a library from standard input, mounts the library, and prints how many rows it has, or the first
//! fault.
#![tactic(auto)]

use report::report;
use std::io;
use std::io::Read;

fn main(rt: HostRuntime) -> io::Result<()> {
    let mut input = Vec::new(rt.alloc());
    rt.stdin().read_to_end(&mut input)?;
    let line = report(rt.alloc(), &input)?;
    rt.print(line)
}
