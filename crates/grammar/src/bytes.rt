// The classes of bytes.
ghost use Rattle.std.specs.Prelude.{◌≡◌};
ghost use Rattle.calendar.specs.Digits.{is_digit};
ghost use Rattle.std.specs.List.{list_all};
ghost use Rattle.grammar.specs.Bytes.{white, plain, lead, trail, capital, is_sign};

pub fn is_white(b: u8) -> bool
    ensures { result ≡ white b }
{
    matches!(b, b' ' | b'\t' | b'\n' | b'\r')
}

pub fn is_plain(b: u8) -> bool
    ensures { result ≡ plain b }
{
    matches!(b, 0x20..=0x21 | 0x23..=0x25 | 0x28..=0x3b | 0x3d | 0x3f..=0x7e)
}

pub fn is_lead(b: u8) -> bool
    ensures { result ≡ lead b }
{
    matches!(b, 0x81..=0xfe)
}

pub fn is_trail(b: u8) -> bool
    ensures { result ≡ trail b }
{
    matches!(b, 0x40..=0x7e | 0xa1..=0xfe)
}

pub fn is_capital(b: u8) -> bool
    ensures { result ≡ capital b }
{
    b.is_ascii_uppercase()
}

pub fn is_digit(b: u8) -> bool
    ensures { result ≡ is_digit b }
{
    b.is_ascii_digit()
}

// Whether the byte may stand in a sender, an identifier or a code.
pub fn is_sign(b: u8) -> bool
    ensures { result ≡ is_sign b }
{
    is_capital(b) || is_digit(b)
}

pub fn are_signs(bytes: &[u8]) -> bool
    ensures { result ≡ list_all is_sign bytes.now }
{
    bytes.iter().all(|b| is_sign(*b))
}
