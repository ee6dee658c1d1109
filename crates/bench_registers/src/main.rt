// Measures look-ups in a register of each kind at several fillings, and prints how their times compare.
#![tactic(auto)]

mod keys;
mod lookups;
mod plan;
mod report;
mod trial;

use crate::plan::Plan;
use crate::report::{print_columns, print_ratios};
use crate::trial::measure_size;
use std::{env, io};

// Both sizes, and how the greater one compares with the other.
fn measure(rt: &HostRuntime, plan: &Plan) -> io::Result<()> {
    if plan.is_timed {
        print_columns(rt)?;
    }
    let small = measure_size(rt, plan, plan.small)?;
    let great = measure_size(rt, plan, plan.great)?;
    if plan.is_timed {
        print!(rt; "great:small ")?;
        print_ratios(rt, &great, &small)?;
    }
    Ok(())
}

fn main(rt: HostRuntime) -> io::Result<()> {
    let mut words = env::args(&rt)?;
    words.next();
    match words.next() {
        Some(word) if word.as_str() == "full" => measure(&rt, &Plan::FULL),
        Some(word) if word.as_str() == "try" => measure(&rt, &Plan::TRIAL),
        _ => {
            println!(rt;
                "bench_registers full   measures for a minute, and prints ratios of times"
            )?;
            println!(rt;
                "bench_registers try    does the same with small registers, and prints what was found"
            )
        }
    }
}
