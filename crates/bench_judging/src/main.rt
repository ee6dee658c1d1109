// Measures how long it takes to read the structure of an upload, to open it and to judge it, and how these times compare.
#![tactic(auto)]

use faults::report::Fault;
use judging::upload::{BLANK, judge_upload};
use lists::shapes::ShapeLists;
use reader::faults::Refusal;
use reader::structure::check_structure;
use std::io::Read;
use std::num::nearest_usize_to_f64;
use std::time::Instant;
use std::{env, io};
use uploads::calls::{Call, LEAST_ROWS, MOST_BYTES};
use uploads::opening::open;
use uploads::upload::Upload;

// Each task is run so often, and the median of its times counts.
const RUNS: usize = 21;

#[derive(Clone, Copy)]
pub enum Task<'a> {
    Reading(&'a [u8]),
    Opening(Call<'a>),
    Judging(Upload<'a>),
}

fn run(task: Task, rows: &mut [Fault]) -> Result<(), Refusal> {
    match task {
        Task::Reading(bytes) => check_structure(bytes).map(|_| ()),
        Task::Opening(call) => open(call).map(|_| ()),
        Task::Judging(upload) => {
            judge_upload(upload, &ShapeLists, rows);
            Ok(())
        }
    }
}

fn seconds(rt: &HostRuntime, task: Task, rows: &mut [Fault]) -> io::Result<f64> {
    let mut times = Vec::with_capacity(rt.alloc(), RUNS)?;
    for _ in 0..RUNS {
        let start = Instant::now(rt)?;
        let _ = run(task, rows);
        times.push(start.elapsed(rt)?)?;
    }
    times.sort_unstable();
    Ok(times.get(RUNS / 2).map_or(0.0, |time| time.as_secs_f64()))
}

// The times of the tasks: in microseconds, in nanoseconds for a byte, and as multiples of that of reading.
fn print_times(rt: &HostRuntime, call: Call, upload: Upload, rows: &mut [Fault]) -> io::Result<()> {
    let reading = seconds(rt, Task::Reading(call.upload), rows)?;
    let opening = seconds(rt, Task::Opening(call), rows)?;
    let judging = seconds(rt, Task::Judging(upload), rows)?;
    for time in [reading, opening, judging] {
        let micros = time * 1e6;
        let per_byte = time * 1e9 / nearest_usize_to_f64(call.upload.len());
        let ratio = time / reading;
        print!(rt; " | {micros:>8.0} {per_byte:>6.2} {ratio:>5.2}")?;
    }
    Ok(())
}

fn measure(rt: &HostRuntime, is_timed: bool) -> io::Result<()> {
    let mut rows = vec![in rt.alloc(); BLANK; LEAST_ROWS]?;
    let mut bytes = Vec::new(rt.alloc());
    rt.stdin()
        .take(MOST_BYTES as u64 + 1)
        .read_to_end(&mut bytes)?;
    let (sender, day) = (b"3501200000", b"1130229");
    let call = Call {
        sender,
        day,
        upload: &bytes,
        rows: LEAST_ROWS,
    };
    let upload = match open(call) {
        Ok(upload) => upload,
        Err(refusal) => {
            let (number, place) = (refusal.number(), refusal.place().unwrap_or(0));
            return println!(rt; "refusal {number} at {place}");
        }
    };
    let found = judge_upload(upload, &ShapeLists, &mut rows);
    print!(rt;
        "{:>4} {:>4} {:>6}",
        found.records, found.accepted, found.faults
    )?;
    if is_timed {
        print_times(rt, call, upload, &mut rows)?;
    }
    println!(rt; "")
}

fn main(rt: HostRuntime) -> io::Result<()> {
    let mut words = env::args(&rt)?;
    words.next();
    match words.next() {
        Some(word) if word.as_str() == "full" => measure(&rt, true),
        Some(word) if word.as_str() == "try" => measure(&rt, false),
        _ => {
            println!(rt; "bench_judging full   times the upload on standard input")?;
            println!(rt; "bench_judging try    judges it once, and prints what was found")
        }
    }
}
