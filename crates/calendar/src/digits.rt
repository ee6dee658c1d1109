// Numbers in ASCII digits: none, if a byte is no digit.
ghost use Rattle.std.specs.Prelude.{◌≡◌, ◌≤◌, [], ◌∷◌, IfSome};
ghost use Rattle.calendar.specs.Digits.{digit_in, two_in, three_in};

fn digit(b: u8) -> Option<u8>
    ensures value { result ≡ digit_in b }
    ensures small { IfSome result (λ n. n ≤ 9) }
{
    match b {
        b'0'..=b'9' => Some(b - b'0'),
        _ => None,
    }
}

pub(crate) fn two_digits(a: u8, b: u8) -> Option<u8>
    ensures value { result ≡ two_in (a ∷ b ∷ []) }
    ensures small { IfSome result (λ n. n ≤ 99) }
{
    Some(digit(a)? * 10 + digit(b)?)
}

// A digit before `two_digits`. A function of its own, since three digits write more than a u8 holds.
pub(crate) fn three_digits(a: u8, b: u8, c: u8) -> Option<u16>
    ensures { result ≡ three_in (a ∷ b ∷ c ∷ []) }
{
    Some(u16::from(digit(a)?) * 100 + u16::from(two_digits(b, c)?))
}
