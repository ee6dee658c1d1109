// Judges the upload on standard input, and prints what becomes of it: see docs/FORMAT.md.
#![tactic(auto)]

use hash_register::store::HashRegister;
use judging::lines::{Line, Row};
use judging::upload::BLANK;
use lists::shapes::ShapeLists;
use receiving::input::judge;
use std::io;
use std::io::Read;
use uploads::calls::LEAST_ROWS;

// Of the input so much is read, the first line included.
const MOST_INPUT: u64 = 65_536;

// The register begins empty, and has room for so many entries.
const SLOTS: usize = 256;

// So many verdicts are taken: one for each record that an upload may have.
const VERDICTS: usize = LEAST_ROWS;

// So many faults are printed at most.
const ROWS: usize = 4_096;

fn main(rt: HostRuntime) -> io::Result<()> {
    let mut register = HashRegister::new(rt.alloc(), SLOTS)?;
    let mut verdicts = vec![in rt.alloc(); None; VERDICTS]?;
    let mut rows = vec![in rt.alloc(); BLANK; ROWS]?;
    // So refusal 9 tells of the input alone: as many verdict rows are lent as a call must lend.
    prove!(verdicts.len() >= LEAST_ROWS);
    let mut input = Vec::new(rt.alloc());
    rt.stdin().take(MOST_INPUT).read_to_end(&mut input)?;
    let answer = judge(&input, &mut register, &ShapeLists, &mut verdicts, &mut rows);
    print!(rt; "{}", Line(answer))?;
    if let Ok(counts) = answer {
        for fault in rows.iter().take(counts.faults) {
            print!(rt; "{}", Row(*fault))?;
        }
    }
    Ok(())
}
