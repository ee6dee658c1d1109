// Where a key is looked for first.
ghost use Rattle.std.specs.Prelude.{◌≡◌, ◌<◌, ◌≤◌};
ghost use Rattle.hash_register.specs.Homes.{homes, mixed, home};

use register::key::Key;

// Odd, and with no pattern in its bits, so that each byte changes the high half.
const MULTIPLIER: u64 = 18_397_679_294_719_823_053;

// How many homes a table for so many keys has.
pub(crate) fn homes(most: usize) -> usize
    requires { most ≤ 65536 }
    ensures { result ≡ homes most }
{
    2 * most + 1
}

// The home of a key among so many.
#[tactic(auto, unfolding(crate::specs::Homes::home))]
pub(crate) fn home(key: &Key, homes: usize) -> usize
    requires { 0 < homes }
    ensures value { result ≡ home homes key.now }
    ensures range { result < homes }
{
    let hash = mixed(mixed(0, &key.sender), &key.identifier);
    (hash >> 32) as usize % homes
}

// A hash with further bytes in it.
fn mixed(hash: u64, bytes: &[u8]) -> u64
    ensures { result ≡ mixed hash bytes.now }
{
    bytes.iter().fold(hash, |hash, byte| {
        hash.wrapping_add(u64::from(*byte)).wrapping_mul(MULTIPLIER)
    })
}
