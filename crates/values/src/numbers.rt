// The numbers that short values write.
ghost use Rattle.std.specs.Prelude.{◌≡◌, ◌<◌, IfSome};
ghost use Rattle.calendar.specs.Digits.{digit_of, all_digits};
ghost use Rattle.values.specs.Numbers.{short_number, order_number, number, rank};

use grammar::bytes::is_digit;

fn digit(b: u8) -> u16
    ensures { result ≡ digit_of b }
{
    if is_digit(b) { u16::from(b - b'0') } else { 0 }
}

fn are_digits(bytes: &[u8]) -> bool
    ensures { result ≡ all_digits bytes.now }
{
    bytes.iter().all(|b| is_digit(*b))
}

// The number that one to four digits write.
pub fn short_number(bytes: &[u8]) -> Option<u16>
    ensures { result ≡ short_number bytes.now }
{
    if !are_digits(bytes) {
        return None;
    }
    match *bytes {
        [a] => Some(digit(a)),
        [a, b] => Some(digit(a) * 10 + digit(b)),
        [a, b, c] => Some(digit(a) * 100 + digit(b) * 10 + digit(c)),
        [a, b, c, d] => Some(digit(a) * 1000 + digit(b) * 100 + digit(c) * 10 + digit(d)),
        _ => None,
    }
}

// The number of an order.
pub fn order_number(bytes: &[u8]) -> Option<u16>
    ensures value { result ≡ order_number bytes.now }
    ensures small { IfSome result (λ n. n < 1000) }
{
    short_number(bytes).filter(|n| *n < 1000)
}

pub fn number(bytes: &[u8]) -> u16
    ensures { result ≡ number bytes.now }
{
    short_number(bytes).unwrap_or(0)
}

// Which child of a birth it is, told by a letter.
pub fn rank(bytes: &[u8]) -> u16
    ensures { result ≡ rank bytes.now }
{
    match *bytes {
        [b @ b'A'..=b'E'] => u16::from(b - b'@'),
        [b @ b'a'..=b'e'] => u16::from(b - b'`'),
        _ => 0,
    }
}
