// Keys: of what stands in the registers before, and of what the uploads bring.
ghost use Rattle.std.specs.Prelude.{◌≡◌, ◌/◌, ◌%◌, IfOk, vec_len};

use register::key::Key;
use std::alloc::{AllocError, Global};
use trials::draws::key_at;

// Of the three senders the one in the middle, so that its keys have others before and behind them.
pub(crate) const SENDER: [u8; 10] = *b"1101100011";

// So many keys, from this number on, of the three senders.
pub(crate) fn keys_from(alloc: Global, first: u64, count: usize) -> Result<Vec<Key>, AllocError>
    ensures { IfOk result (λ keys. vec_len keys ≡ count) }
{
    (0..count as u64)
        .map(|i| key_at(first.wrapping_add(i)))
        .collect(alloc)
}

// The same, of the sender of the uploads alone.
pub(crate) fn keys_of_sender(
    alloc: Global,
    first: u64,
    count: usize,
) -> Result<Vec<Key>, AllocError>
    ensures { IfOk result (λ keys. vec_len keys ≡ count) }
{
    (0..count as u64)
        .map(|i| Key {
            sender: SENDER,
            ..key_at(first.wrapping_add(i))
        })
        .collect(alloc)
}
