// Reads visits from standard input, a line for each, and prints until which day each may be corrected.
#![tactic(auto)]

use std::io;
use std::io::{BufWriter, Read, Write};
use visits::answer::Line;
use visits::session::Session;

// Answers the lines that end in this part of the input.
fn answer_part<W: Write>(session: &mut Session, part: &[u8], out: &mut W) -> io::Result<()> {
    for answer in part.iter().filter_map(|&byte| session.feed(byte)) {
        writeln!(out, "{}", Line(answer))?;
    }
    Ok(())
}

fn main(rt: HostRuntime) -> io::Result<()> {
    let mut session = Session::new(rt.alloc())?;
    let mut input = rt.stdin();
    let mut out = BufWriter::new(rt.alloc(), rt.stdout())?;
    let mut part = [0u8; 4096];
    // Each part is answered before the next is waited for. The reads are counted, since every loop of the project has to end;
    // no input takes as many.
    for _ in 0..u64::MAX {
        let n = input.read(&mut part)?;
        if n == 0 {
            break;
        }
        // `read` tells how much it filled.
        answer_part(&mut session, &part[..n], &mut out)?;
        out.flush()?;
    }
    let (last, tally) = session.finish();
    if let Some(answer) = last {
        writeln!(out, "{}", Line(answer))?;
    }
    writeln!(out, "{tally}")?;
    out.flush()
}
