// What a byte may be asked to be: one byte, or any of a class.
ghost use Rattle.std.specs.Prelude.{◌≡◌, ℕ, Bool, ◌==◌};
ghost use Rattle.reader.specs.Scans.{fits};

use grammar::bytes::{is_capital, is_digit};

// What takes some bytes and no others.
pub(crate) trait Expected: Copy {
    ghost takes: { Self → ℕ → Bool };

    fn takes(self, b: u8) -> bool
        ensures { result ≡ takes self b };
}

impl Expected for u8 {
    ghost takes = { λ e b. b == e };

    fn takes(self, b: u8) -> bool {
        b == self
    }
}

// What a byte of an opening tag must be. It has a case for one byte, since such a tag mixes bytes and classes.
#[derive(Clone, Copy, PartialEq, Eq, Debug)]
pub(crate) enum Class {
    Byte(u8),
    Capital,
    Digit,
}

impl Expected for Class {
    ghost takes = { fits };

    fn takes(self, b: u8) -> bool {
        match self {
            Class::Byte(wanted) => b == wanted,
            Class::Capital => is_capital(b),
            Class::Digit => is_digit(b),
        }
    }
}
