// Requests to both registers: at random, and such that fill and empty them.

use crate::twins::Twins;
use register::key::Key;
use register::requests::Request;
use trials::dice::Dice;
use trials::draws::{SENDERS, entry_with, key_of};

// For so many requests most are puts, then for as many most are removals, and so on.
const SWING: u64 = 1_000;

// One of so many keys.
fn any_key(dice: &mut Dice, keys: usize) -> Key {
    key_of(dice.roll(keys) as u64)
}

// No key, or one of so many.
fn any_origin(dice: &mut Dice, keys: usize) -> Option<Key> {
    match dice.roll(3) {
        0 => None,
        _ => Some(any_key(dice, keys)),
    }
}

// A request about one of so many keys: of ten, so many are puts and so many removals.
fn any_request(dice: &mut Dice, keys: usize, puts: usize, removals: usize) -> Request {
    let key = any_key(dice, keys);
    match dice.roll(10) {
        n if n < puts => {
            let origin = any_origin(dice, keys);
            let entry = entry_with(dice, origin);
            Request::Put { key, entry }
        }
        n if n - puts < removals => Request::Remove { key },
        7 => Request::LookUp { key },
        8 => Request::IsDispensedElsewhere { key },
        _ => Request::IsTakenElsewhere {
            key,
            refill: dice.roll(11) as u8,
            than: any_key(dice, keys),
        },
    }
}

// So many requests about few keys: of each sender about twice as many as there may be entries.
pub(crate) fn ask_at_random(twins: &mut Twins, dice: &mut Dice, entries: usize, requests: u64) {
    let keys = entries
        .saturating_mul(2)
        .saturating_add(1)
        .saturating_mul(SENDERS as usize);
    for i in 0..requests {
        let request = match i / SWING % 2 {
            0 => any_request(dice, keys, 6, 1),
            _ => any_request(dice, keys, 1, 6),
        };
        twins.ask(request);
    }
}

// An entry under each number, one under another, and a look at all.
pub(crate) fn fill(twins: &mut Twins, dice: &mut Dice, numbers: &[u64]) {
    for &number in numbers {
        let entry = entry_with(dice, None);
        twins.ask(Request::Put {
            key: key_of(number),
            entry,
        });
    }
    let entry = entry_with(dice, None);
    twins.ask(Request::Put {
        key: key_of(numbers.len() as u64),
        entry,
    });
    look_up_all(twins, numbers);
}

// A removal for each number, and a look at all.
pub(crate) fn empty(twins: &mut Twins, numbers: &[u64]) {
    for &number in numbers {
        twins.ask(Request::Remove {
            key: key_of(number),
        });
    }
    look_up_all(twins, numbers);
}

fn look_up_all(twins: &mut Twins, numbers: &[u64]) {
    for &number in numbers {
        twins.ask(Request::LookUp {
            key: key_of(number),
        });
    }
}
