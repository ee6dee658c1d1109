// What every kind of register promises, in terms of what it holds.
ghost use Rattle.std.specs.Prelude.{◌≡◌, IsTrue, ◌↔◌, is_some};
ghost use Rattle.register.specs.Contents.{Contents, IsFinite, put_in, put_answer, without, DispensedElsewhere, TakenElsewhere};

use crate::entry::Entry;
use crate::key::Key;

// A register is made for so many entries at most.
pub const MOST_ENTRIES: usize = 65_536;

// A register that holds as many entries as it may has no room for a new key.
#[derive(Clone, Copy, PartialEq, Eq, Debug)]
pub struct Full;

pub trait Register {
    ghost contents: { Self → Contents };

    // The entry under the key.
    fn look_up(&self, key: &Key) -> Option<Entry>
        ensures { result ≡ (contents self.now).at key.now };

    // Puts the entry under the key, in place of one that stands there. A full register takes no new key.
    fn put(&mut self, key: Key, entry: Entry) -> Result<(), Full>
        ensures answer { result ≡ put_answer (contents self.old) key }
        ensures after { contents self.new ≡ put_in (contents self.old) key entry };

    // Takes the entry under the key away, and tells whether one stood there.
    fn remove(&mut self, key: &Key) -> bool
        ensures answer { result ≡ is_some ((contents self.old).at key.now) }
        ensures after { contents self.new ≡ without (contents self.old) key.now };

    // Whether an entry with the origin `key` stands under another key.
    fn is_dispensed_elsewhere(&self, key: &Key) -> bool
        ensures { IsTrue result ↔ DispensedElsewhere (contents self.now) key.now };

    // Whether the refill of `key` is taken under a key other than `than`.
    fn is_taken_elsewhere(&self, key: &Key, refill: u8, than: &Key) -> bool
        ensures { IsTrue result ↔ TakenElsewhere (contents self.now) key.now refill than.now };

    // The count is the number of the keys that have an entry, and at most the greatest count.
    ghost finite: { (s : Self) → IsFinite (contents s) };
}
