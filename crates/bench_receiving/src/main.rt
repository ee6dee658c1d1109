// Measures how long it takes to receive an upload into a register of each kind, empty and nearly full, and how these times compare.
#![tactic(auto)]

mod keys;
mod plan;
mod receipts;
mod report;
mod texts;
mod trial;

use crate::plan::Plan;
use crate::report::{print_answers, print_times};
use crate::trial::measure;
use std::{env, io};

fn run(rt: &HostRuntime, plan: &Plan) -> io::Result<()> {
    let table = measure(rt, plan)?;
    if plan.is_timed {
        print_times(rt, plan, &table)
    } else {
        print_answers(rt, &table)
    }
}

fn main(rt: HostRuntime) -> io::Result<()> {
    let mut words = env::args(&rt)?;
    words.next();
    match words.next() {
        Some(word) if word.as_str() == "full" => run(&rt, &Plan::FULL),
        Some(word) if word.as_str() == "try" => run(&rt, &Plan::TRIAL),
        _ => {
            println!(rt;
                "bench_receiving full   measures for a minute, and prints times and their ratios"
            )?;
            println!(rt;
                "bench_receiving try    does the same with smaller registers, and prints what became of the uploads"
            )
        }
    }
}
