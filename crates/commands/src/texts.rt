// Bytes as text.
ghost use Rattle.std.specs.Prelude.{◌≡◌, ◌<◌, map, Some};
ghost use Rattle.commands.specs.Texts.{shown, without_zeros};

use std::fmt;

// Printable ASCII bytes as they are, and a question mark for any other.
#[derive(Clone, Copy)]
pub(crate) struct Text<'a>(pub(crate) &'a [u8]);

impl fmt::Display for Text<'_> {
    ghost output = { λ t. Some (map shown t.0.now) };

    fn fmt<W: fmt::Write>(&self, f: &mut fmt::Formatter<W>) -> fmt::Result {
        for b in self.0 {
            f.write_char(shown(*b))?;
        }
        Ok(())
    }
}

fn shown(b: u8) -> char
    ensures value { result ≡ shown b }
    ensures ascii { result < 128 }
{
    match b {
        b' '..=b'~' => char::from(b),
        _ => '?',
    }
}

// The bytes without the zero bytes at their end.
pub(crate) fn without_zeros(bytes: &[u8]) -> &[u8]
    ensures { result.now ≡ without_zeros bytes.now }
{
    let mut end = bytes.len();
    while end > 0 && bytes[end - 1] == 0 {
        end -= 1;
    }
    &bytes[..end]
}
