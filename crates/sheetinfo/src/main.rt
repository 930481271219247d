// Reads a sheet from standard input, and prints what it holds, or which fault it has and where.
#![tactic(auto)]

use info::{describe_start, enough};
use std::io;
use std::io::Read;

fn main(rt: HostRuntime) -> io::Result<()> {
    let mut start = Vec::new(rt.alloc());
    rt.stdin().take(enough()).read_to_end(&mut start)?;
    let text = describe_start(rt.alloc(), start.as_slice())?;
    print!(rt; "{text}")
}
