// Numbers in decimal digits, nine at most.
ghost use Rattle.std.specs.Prelude.{◌≡◌, ◌≤◌};
ghost use Rattle.calendar.specs.Digits.{digit_of, all_digits};
ghost use Rattle.commands.specs.Numbers.{number_in};

use crate::malformed::Malformed;
use grammar::bytes::is_digit;

fn digit(b: u8) -> usize
    ensures value { result ≡ digit_of b }
    ensures small { result ≤ 9 }
{
    if is_digit(b) {
        usize::from(b - b'0')
    } else {
        0
    }
}

fn are_digits(bytes: &[u8]) -> bool
    ensures { result ≡ all_digits bytes.now }
{
    bytes.iter().all(|b| is_digit(*b))
}

// The number that one to nine digits write.
pub(crate) fn number(word: &[u8]) -> Result<usize, Malformed>
    ensures { result ≡ number_in word.now }
{
    if !(1..=9).contains(&word.len()) || !are_digits(word) {
        return Err(Malformed::Number);
    }
    let mut number = 0;
    for b in word {
        number = number * 10 + digit(*b);
    }
    Ok(number)
}
