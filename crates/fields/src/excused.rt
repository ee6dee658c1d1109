// The codes of an order, field D06, for which D08 and D14 are excused.
ghost use Rattle.fields.specs.Excused.{short_codes, long_codes, is_excused_code};
ghost use Rattle.std.specs.List.{list_any};
ghost use Rattle.std.specs.Prelude.{◌≡◌};
ghost use Rattle.std.specs.Str.{bytes_eq};

const SHORT: [[u8; 3]; 14] = [
    *b"M01", *b"M02", *b"M03", *b"M04", *b"M05", *b"M06", *b"M11", *b"M12", *b"M13", *b"A21",
    *b"MA1", *b"MA2", *b"MA3", *b"MA4",
];

const LONG: [[u8; 6]; 6] = [
    *b"P31102", *b"P32102", *b"P33021", *b"P23021", *b"P34021", *b"P38021",
];

pub fn is_excused_code(code: &[u8]) -> bool
    ensures { result ≡ is_excused_code code.now }
{
    is_short(code) || is_long(code)
}

fn is_short(code: &[u8]) -> bool
    ensures { result ≡ list_any (λ e. bytes_eq e code.now) short_codes }
{
    SHORT.iter().any(|excused| excused.as_slice() == code)
}

fn is_long(code: &[u8]) -> bool
    ensures { result ≡ list_any (λ e. bytes_eq e code.now) long_codes }
{
    LONG.iter().any(|excused| excused.as_slice() == code)
}
