// Keys for a measurement: those that stand in the register, in no order, and those to look up.
ghost use Rattle.std.specs.Prelude.{◌≡◌, ◌<◌, ◌/◌, ◌%◌, IfOk, vec_len, length};

use register::key::Key;
use std::alloc::{AllocError, Global};
use trials::dice::Dice;
use trials::draws::key_at;

// The keys of these numbers.
pub(crate) fn keys_of(alloc: Global, numbers: &[u64]) -> Result<Vec<Key>, AllocError>
    ensures { IfOk result (λ keys. vec_len keys ≡ length numbers.now) }
{
    numbers.iter().map(|number| key_at(*number)).collect(alloc)
}

// So many numbers, from the first on.
pub(crate) fn numbers_from(alloc: Global, first: u64, count: usize) -> Result<Vec<u64>, AllocError>
    ensures { IfOk result (λ numbers. vec_len numbers ≡ count) }
{
    (0..count as u64)
        .map(|i| first.wrapping_add(i))
        .collect(alloc)
}

// So many keys of these numbers, drawn by the dice; none, if there are no numbers.
pub(crate) fn drawn(
    alloc: Global,
    dice: &mut Dice,
    numbers: &[u64],
    count: usize,
) -> Result<Vec<Key>, AllocError>
    ensures { IfOk result (λ keys. 0 < length numbers.now → vec_len keys ≡ count) }
{
    let mut keys = Vec::with_capacity(alloc, count)?;
    for _ in 0..count {
        if let Some(&number) = numbers.get(dice.roll(numbers.len())) {
            keys.push(key_at(number))?;
        }
    }
    Ok(keys)
}
