// Keys by number, and entries by the dice.
ghost use Rattle.std.specs.Prelude.{◌≡◌, ◌/◌, ◌%◌};
ghost use Rattle.std.specs.Str.Parse.{digits_value};
ghost use Rattle.trials.specs.Keys.{sender_of, scattered};

use crate::dice::Dice;
use register::entry::Entry;
use register::key::Key;
use register::refills::Refills;

// How many senders there are.
pub const SENDERS: u64 = 3;

// The key with this number: the senders take turns, and the identifier is the number of the turn. No two numbers have one key.
pub fn key_of(number: u64) -> Key
    ensures sender { result.sender ≡ sender_of (number % 3) }
    ensures identifier { digits_value 10 result.identifier ≡ number / 3 }
{
    let mut sender = *b"1101100010";
    sender[9] = b'0' + (number % SENDERS) as u8;
    Key {
        sender,
        identifier: digits(number / SENDERS),
    }
}

// Odd, so that no two numbers below 2 to the 64 are scattered onto one.
const SCATTER: u64 = 11_400_714_819_323_198_485;

// The key with this number, which lies anywhere among the others.
pub fn key_at(number: u64) -> Key
    ensures sender { result.sender ≡ sender_of (scattered number % 3) }
    ensures identifier { digits_value 10 result.identifier ≡ scattered number / 3 }
{
    key_of(number.wrapping_mul(SCATTER))
}

// The number in twenty digits, as many as the greatest has.
fn digits(number: u64) -> [u8; 20]
    ensures { digits_value 10 result ≡ number }
{
    let mut digits = [b'0'; 20];
    let mut rest = number;
    for i in 0..20 {
        digits[19 - i] = b'0' + (rest % 10) as u8;
        rest /= 10;
    }
    digits
}

// An entry by the dice, with this origin. What else it holds is left open.
pub fn entry_with(dice: &mut Dice, origin: Option<Key>) -> Entry
    ensures { result.origin ≡ origin }
{
    let category = [*b"04", *b"AE", *b"AF"][dice.roll(3)];
    let mut refills = Refills::new();
    for refill in 1..=9 {
        if dice.roll(2) == 0 {
            refills.insert(refill);
        }
    }
    Entry {
        patient: [b'A' + dice.roll(26) as u8; 10],
        birth: [b'0' + dice.roll(10) as u8; 7],
        category,
        visit: [b'0' + dice.roll(10) as u8; 13],
        origin,
        times: dice.roll(10) as u8,
        refills,
        cancelled: dice.roll(2) == 0,
    }
}
