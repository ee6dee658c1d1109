// The key of an entry: the sender of a record and the identifier that the sender gave it.
ghost use Rattle.std.specs.Prelude.{◌≡◌, ◌==◌};
ghost use Rattle.std.specs.List.{list_all};
ghost use Rattle.grammar.specs.Bytes.{is_sign};
ghost use Rattle.register.specs.Identifiers.{is_placeholder};

use grammar::bytes::are_signs;

// Plain bytes; `read` makes the lawful ones.
#[derive(Clone, Copy, PartialEq, Eq, Debug)]
pub struct Key {
    pub sender: [u8; 10],
    pub identifier: [u8; 20],
}

impl Key {
    ghost use Rattle.register.specs.Keys.{key_in};

    // The key that these bytes write: ten and twenty of A to Z and 0 to 9.
    pub fn read(sender: &[u8], identifier: &[u8]) -> Option<Key>
        ensures { result ≡ key_in sender.now identifier.now }
    {
        if !are_signs(sender) || !are_signs(identifier) {
            return None;
        }
        Some(Key {
            sender: sender.try_into().ok()?,
            identifier: identifier.try_into().ok()?,
        })
    }

    // Whether the identifier is a placeholder, which stands for no particular record. A register treats it like any other.
    pub fn is_placeholder(&self) -> bool
        ensures { result ≡ is_placeholder self.now.identifier }
    {
        let (_, end) = self.identifier.split_at(4);
        all_are(&self.identifier, b'9') || all_are(&self.identifier, b'F') || all_are(end, b'0')
    }
}

fn all_are(bytes: &[u8], byte: u8) -> bool
    ensures { result ≡ list_all (λ b. b == byte) bytes.now }
{
    bytes.iter().all(|b| *b == byte)
}
