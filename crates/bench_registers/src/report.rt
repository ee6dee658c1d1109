// What was measured, and how it is printed: ratios of times, or what was found.

use crate::lookups::Times;
use std::io;

// Look-ups in one register: of keys that stand there, and of such as do not.
#[derive(Clone, Copy)]
pub struct Measured {
    pub present: Times,
    pub absent: Times,
}

// The same look-ups in a register of each kind.
#[derive(Clone, Copy)]
pub struct Row {
    pub ordered: Measured,
    pub scattered: Measured,
}

// What the columns of `print_ratios` are.
pub(crate) fn print_columns(rt: &impl Print) -> io::Result<()> {
    println!(rt;
        "Times of look-ups compared: ord in key order, scat scattered; base is the row of 1 %,"
    )?;
    println!(rt;
        "after as many removals and puts as entries that of 100 %, and at the end that of the small registers."
    )?;
    println!(rt;
        "            |         present keys          |          absent keys          | present:absent"
    )?;
    println!(rt;
        "            |  ord:scat  ord:base scat:base |  ord:scat  ord:base scat:base |    ord    scat"
    )
}

// How the times of a row compare: kind with kind, each kind with what it took in the row `base`, present keys with absent ones.
pub(crate) fn print_ratios(rt: &impl Print, row: &Row, base: &Row) -> io::Result<()> {
    let (ordered, scattered) = (row.ordered, row.scattered);
    print_sort(
        rt,
        &ordered.present,
        &scattered.present,
        &base.ordered.present,
        &base.scattered.present,
    )?;
    print_sort(
        rt,
        &ordered.absent,
        &scattered.absent,
        &base.ordered.absent,
        &base.scattered.absent,
    )?;
    let by_ordered = ordered.present.seconds / ordered.absent.seconds;
    let by_scattered = scattered.present.seconds / scattered.absent.seconds;
    println!(rt; "| {by_ordered:>6.2} {by_scattered:>7.2}")
}

// The same for one sort of keys.
fn print_sort(
    rt: &impl Print,
    ordered: &Times,
    scattered: &Times,
    ordered_base: &Times,
    scattered_base: &Times,
) -> io::Result<()> {
    let kinds = ordered.seconds / scattered.seconds;
    let by_ordered = ordered.seconds / ordered_base.seconds;
    let by_scattered = scattered.seconds / scattered_base.seconds;
    print!(rt; "| {kinds:>9.2} {by_ordered:>9.2} {by_scattered:>9.2} ")
}

// What was found, in place of times.
pub(crate) fn print_found(rt: &impl Print, row: &Row) -> io::Result<()> {
    print_measured(rt, "in key order ", &row.ordered)?;
    print_measured(rt, ", scattered ", &row.scattered)?;
    println!(rt; "")
}

fn print_measured(rt: &impl Print, kind: &str, measured: &Measured) -> io::Result<()> {
    let Measured { present, absent } = measured;
    let Times { found, keys, .. } = present;
    print!(rt; "{kind}{found} of {keys} present")?;
    let Times { found, keys, .. } = absent;
    print!(rt; " and {found} of {keys} absent keys")
}
