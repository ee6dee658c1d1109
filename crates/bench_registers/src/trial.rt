// Registers of one size, filled to several parts and churned.

use crate::keys::{drawn, keys_of, numbers_from};
use crate::lookups::time_look_ups;
use crate::plan::Plan;
use crate::report::{Measured, Row, print_found, print_ratios};
use hash_register::store::HashRegister;
use ordered_register::store::OrderedRegister;
use register::register::Register;
use std::alloc::{AllocError, Global};
use std::io;
use std::rt::Clock;
use trials::dice::Dice;
use trials::draws::{entry_with, key_at};

// A register and the numbers of the keys that stand there.
#[derive(Drop)]
struct Filled<R: Register> {
    register: R,
    numbers: Vec<u64>,
}

// A register in key order that is filled in that order: a put at another place moves what stands behind it.
fn filled_in_order(
    alloc: Global,
    entries: usize,
    count: usize,
) -> Result<Filled<OrderedRegister>, AllocError> {
    let numbers = numbers_from(alloc, 0, count)?;
    let mut keys = keys_of(alloc, &numbers)?;
    keys.sort_unstable();
    let mut register = OrderedRegister::new(alloc, entries)?;
    let entry = entry_with(&mut Dice { state: 3 }, None);
    for &key in &keys {
        let _ = register.put(key, entry);
    }
    Ok(Filled { register, numbers })
}

fn filled_scattered(
    alloc: Global,
    entries: usize,
    count: usize,
) -> Result<Filled<HashRegister>, AllocError> {
    let numbers = numbers_from(alloc, 0, count)?;
    let mut register = HashRegister::new(alloc, entries)?;
    let entry = entry_with(&mut Dice { state: 3 }, None);
    for &key in &keys_of(alloc, &numbers)? {
        let _ = register.put(key, entry);
    }
    Ok(Filled { register, numbers })
}

// So many times: a key that stands there is removed, and one that never did is put.
fn churn<R: Register>(filled: &mut Filled<R>, first: u64, steps: usize) {
    let mut dice = Dice { state: 4 };
    let entry = entry_with(&mut dice, None);
    for i in 0..steps {
        let place = dice.roll(filled.numbers.len());
        let fresh = first.wrapping_add(i as u64);
        if let Some(number) = filled.numbers.get_mut(place) {
            filled.register.remove(&key_at(*number));
            let _ = filled.register.put(key_at(fresh), entry);
            *number = fresh;
        }
    }
}

// Look-ups of keys that stand there, and of such as do not.
fn measure<R: Register, T: AllocGlobal + Clock>(
    rt: &T,
    plan: &Plan,
    filled: &Filled<R>,
    absent: &[u64],
) -> io::Result<Measured> {
    let mut dice = Dice { state: 2 };
    let there = drawn(rt.alloc(), &mut dice, &filled.numbers, plan.look_ups)?;
    let elsewhere = drawn(rt.alloc(), &mut dice, absent, plan.look_ups)?;
    Ok(Measured {
        present: time_look_ups(rt, &filled.register, &there, plan.passes)?,
        absent: time_look_ups(rt, &filled.register, &elsewhere, plan.passes)?,
    })
}

// Registers for so many entries with so many in them.
fn measure_filled<T: AllocGlobal + Clock>(
    rt: &T,
    plan: &Plan,
    entries: usize,
    count: usize,
) -> io::Result<Row> {
    let absent = numbers_from(rt.alloc(), entries as u64, entries)?;
    let ordered = filled_in_order(rt.alloc(), entries, count)?;
    let scattered = filled_scattered(rt.alloc(), entries, count)?;
    Ok(Row {
        ordered: measure(rt, plan, &ordered, &absent)?,
        scattered: measure(rt, plan, &scattered, &absent)?,
    })
}

// Full registers after removals and puts.
fn measure_churned<T: AllocGlobal + Clock>(rt: &T, plan: &Plan, entries: usize) -> io::Result<Row> {
    let absent = numbers_from(rt.alloc(), entries as u64, entries)?;
    let first = (entries as u64).wrapping_mul(2);
    let mut ordered = filled_in_order(rt.alloc(), entries, entries)?;
    churn(&mut ordered, first, entries);
    let mut scattered = filled_scattered(rt.alloc(), entries, entries)?;
    churn(&mut scattered, first, entries);
    Ok(Row {
        ordered: measure(rt, plan, &ordered, &absent)?,
        scattered: measure(rt, plan, &scattered, &absent)?,
    })
}

// What a plan prints of a row.
fn print_row(rt: &impl Print, plan: &Plan, row: &Row, base: &Row) -> io::Result<()> {
    if plan.is_timed {
        print_ratios(rt, row, base)
    } else {
        print_found(rt, row)
    }
}

// All fillings of one size, the last of them returned, and the churn.
pub(crate) fn measure_size<T: AllocGlobal + Clock + Print>(
    rt: &T,
    plan: &Plan,
    entries: usize,
) -> io::Result<Row> {
    println!(rt; "room for {entries}")?;
    let first = measure_filled(rt, plan, entries, entries / 100)?;
    print!(rt; "   1 % full ")?;
    print_row(rt, plan, &first, &first)?;
    for percent in [50, 90] {
        let row = measure_filled(rt, plan, entries, entries.saturating_mul(percent) / 100)?;
        print!(rt; "{percent:>4} % full ")?;
        print_row(rt, plan, &row, &first)?;
    }
    let full = measure_filled(rt, plan, entries, entries)?;
    print!(rt; " 100 % full ")?;
    print_row(rt, plan, &full, &first)?;
    let churned = measure_churned(rt, plan, entries)?;
    print!(rt; "    churned ")?;
    print_row(rt, plan, &churned, &full)?;
    Ok(full)
}
