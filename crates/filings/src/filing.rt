// What a record asks of the register.
ghost use Rattle.std.specs.Prelude.{◌≡◌};

use register::entry::Entry;
use register::key::Key;

// Whose visit a cancellation or a deletion takes back.
#[derive(Clone, Copy, PartialEq, Eq, Debug)]
pub struct Person {
    // with zero bytes after it, if it is shorter
    pub patient: [u8; 10],
    // the digits of a day
    pub birth: [u8; 7],
}

#[derive(Clone, Copy, PartialEq, Eq, Debug)]
pub enum Deed {
    // a visit, which the entry tells of
    Visit(Entry),
    Cancel(Person),
    Delete(Person),
}

// A deed under a key: that of the record's sender and its identifier.
#[derive(Clone, Copy, PartialEq, Eq, Debug)]
pub struct Filing {
    pub key: Key,
    pub deed: Deed,
}

impl Person {
    ghost use Rattle.filings.specs.Filings.{is_of};

    // Whether the entry is that of the person.
    pub fn is_of(&self, entry: &Entry) -> bool
        ensures { result ≡ is_of self.now entry.now }
    {
        entry.patient == self.patient && entry.birth == self.birth
    }
}
