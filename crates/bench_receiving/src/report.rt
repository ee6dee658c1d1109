// How a table is printed: times for a record, or what became of the uploads.

use crate::plan::Plan;
use crate::receipts::Receipt;
use crate::trial::Table;
use std::io;
use std::num::nearest_usize_to_f64;

// The microseconds for each of so many records.
fn micros(receipt: &Receipt, records: usize) -> f64 {
    receipt.seconds * 1e6 / nearest_usize_to_f64(records)
}

// A time for a record, and as a multiple of two others.
fn print_row(rt: &impl Print, name: &str, time: f64, base: f64, alone: f64) -> io::Result<()> {
    let to_base = time / base;
    let to_alone = time / alone;
    println!(rt; "{name} {time:>10.2} {to_base:>9.2} {to_alone:>9.2}")
}

fn print_visits(rt: &impl Print, plan: &Plan, table: &Table) -> io::Result<()> {
    let alone = micros(&table.visits, plan.visits);
    let ordered = micros(&table.ordered.empty, plan.visits);
    let ordered_full = micros(&table.ordered.full, plan.visits);
    let scattered = micros(&table.scattered.empty, plan.visits);
    let scattered_full = micros(&table.scattered.full, plan.visits);
    let fastest = ordered.min(ordered_full).min(scattered.min(scattered_full));
    println!(rt; "visits                     microsec.  :fastest  :judging")?;
    for (name, time) in [
        ("in key order, empty      ", ordered),
        ("in key order, nearly full", ordered_full),
        ("scattered, empty         ", scattered),
        ("scattered, nearly full   ", scattered_full),
    ] {
        print_row(rt, name, time, fastest, alone)?;
    }
    Ok(())
}

fn print_dispensings(rt: &impl Print, plan: &Plan, table: &Table) -> io::Result<()> {
    let alone = micros(&table.dispensings, plan.dispensings);
    println!(rt; "dispensings, nearly full   microsec.   :visits  :judging")?;
    for (name, again, column) in [
        (
            "in key order, new        ",
            "in key order, once more  ",
            &table.ordered,
        ),
        (
            "scattered, new           ",
            "scattered, once more     ",
            &table.scattered,
        ),
    ] {
        let base = micros(&column.full, plan.visits);
        print_row(
            rt,
            name,
            micros(&column.dispensings, plan.dispensings),
            base,
            alone,
        )?;
        print_row(
            rt,
            again,
            micros(&column.again, plan.dispensings),
            base,
            alone,
        )?;
    }
    Ok(())
}

// The times for a record, in microseconds: those of visits as multiples of the fastest kind and fill, those of dispensings as
// multiples of what visits take in the same register, and all as multiples of what judging alone takes.
pub(crate) fn print_times(rt: &impl Print, plan: &Plan, table: &Table) -> io::Result<()> {
    let Plan {
        entries,
        visits,
        dispensings,
        ..
    } = plan;
    println!(rt; "room for {entries}; uploads of {visits} visits and {dispensings} dispensings")?;
    print_visits(rt, plan, table)?;
    print_dispensings(rt, plan, table)
}

fn print_answer(rt: &impl Print, name: &str, receipt: &Receipt) -> io::Result<()> {
    match receipt.answer {
        Ok(counts) => println!(rt; "{name} {} of {} accepted", counts.accepted, counts.records),
        Err(refusal) => {
            let number = refusal.number();
            println!(rt; "{name} refusal {number}")
        }
    }
}

// What became of the uploads, in place of times.
pub(crate) fn print_answers(rt: &impl Print, table: &Table) -> io::Result<()> {
    print_answer(rt, "visits judged alone:", &table.visits)?;
    print_answer(rt, "dispensings judged alone:", &table.dispensings)?;
    for (kind, column) in [
        ("in key order,", &table.ordered),
        ("scattered,", &table.scattered),
    ] {
        print!(rt; "{kind} ")?;
        print_answer(rt, "empty, visits:", &column.empty)?;
        print!(rt; "{kind} ")?;
        print_answer(rt, "nearly full, visits:", &column.full)?;
        print!(rt; "{kind} ")?;
        print_answer(rt, "nearly full, dispensings:", &column.dispensings)?;
        print!(rt; "{kind} ")?;
        print_answer(rt, "nearly full, dispensings once more:", &column.again)?;
    }
    Ok(())
}
