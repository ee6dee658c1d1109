// Works a night's queue: reads commands from standard input, a line each, and answers each on standard output. See docs/FORMAT.md.
#![tactic(auto)]

mod failure;
mod input;
mod relay;

use crate::input::{KEPT_OF_LINE, read_line};
use crate::relay::Relay;
use std::io;
use std::io::{BufReader, BufWriter, Write};

fn main(rt: HostRuntime) -> io::Result<()> {
    let mut relay = Relay::new(rt.alloc())?;
    let mut line = Vec::with_capacity(rt.alloc(), KEPT_OF_LINE)?;
    let mut input = BufReader::new(rt.alloc(), rt.stdin())?;
    let mut out = BufWriter::new(rt.alloc(), rt.stdout())?;
    // Each command is answered before the next is waited for. They are counted, since every loop of the project has to end; no input
    // has as many.
    for _ in 0..u64::MAX {
        if !read_line(&mut input, &mut line)? {
            break;
        }
        relay.answer(&line, &mut input, &mut out)?;
        out.flush()?;
    }
    Ok(())
}
