// Asks a register of each kind the same, many thousand times, and tells what they replied and how often they differed.
#![tactic(auto)]

mod asking;
mod tally;
mod twins;

use crate::asking::{ask_at_random, empty, fill};
use crate::twins::Twins;
use std::io;
use trials::dice::Dice;

// How many requests each size gets at random.
const REQUESTS: u64 = 20_000;

// A size's requests at random.
fn try_at_random<R: AllocGlobal + Print>(
    rt: &R,
    entries: usize,
    dice: &mut Dice,
) -> io::Result<()> {
    let mut twins = Twins::new(rt.alloc(), entries)?;
    ask_at_random(&mut twins, dice, entries, REQUESTS);
    let tally = twins.take_tally();
    println!(rt; "room for {entries}, at random: {tally}")
}

// A size, filled and emptied.
fn try_completely<R: AllocGlobal + Print>(
    rt: &R,
    entries: usize,
    dice: &mut Dice,
) -> io::Result<()> {
    let mut numbers = Vec::with_capacity(rt.alloc(), entries)?;
    for number in 0..entries {
        numbers.push(number as u64)?;
    }
    let mut twins = Twins::new(rt.alloc(), entries)?;
    dice.shuffle(&mut numbers);
    fill(&mut twins, dice, &numbers);
    let tally = twins.take_tally();
    println!(rt; "room for {entries}, filled: {tally}")?;
    dice.shuffle(&mut numbers);
    empty(&mut twins, &numbers);
    let tally = twins.take_tally();
    println!(rt; "room for {entries}, then emptied: {tally}")
}

fn main(rt: HostRuntime) -> io::Result<()> {
    let mut dice = Dice { state: 1 };
    for entries in [0, 1, 48] {
        try_at_random(&rt, entries, &mut dice)?;
    }
    for entries in [0, 1, 48, 2000] {
        try_completely(&rt, entries, &mut dice)?;
    }
    Ok(())
}
