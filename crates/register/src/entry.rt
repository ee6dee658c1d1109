// What the register keeps of a visit record, in plain bytes and digits.
ghost use Rattle.std.specs.Prelude.{◌≡◌};
ghost use Rattle.register.specs.Categories.{is_dispensing};

use crate::key::Key;
use crate::refills::Refills;
use calendar::day::Day;
use calendar::moment::Moment;

#[derive(Clone, Copy, PartialEq, Eq, Debug)]
pub struct Entry {
    // with zero bytes after it, if it is shorter
    pub patient: [u8; 10],
    // the digits of a day
    pub birth: [u8; 7],
    pub category: [u8; 2],
    // the digits of a moment
    pub visit: [u8; 13],
    // the prescription that a dispensing fills
    pub origin: Option<Key>,
    // how often it may be dispensed
    pub times: u8,
    pub refills: Refills,
    pub cancelled: bool,
}

impl Entry {
    ghost use Rattle.std.specs.Option.{option_map};
    ghost use Rattle.calendar.specs.Clock.{stamp_in};
    ghost use Rattle.calendar.specs.Days.{date_of};
    ghost use Rattle.calendar.specs.Moments.{stamp_of};
    ghost use Rattle.calendar.specs.Written.{date_in};
    ghost use Rattle.register.specs.Entries.{source, dispenses, takes_for};

    // The birth day, if the digits are those of a day.
    pub fn birth_day(&self) -> Option<Day>
        ensures { option_map date_of result ≡ date_in self.now.birth }
    {
        Day::read(&self.birth)
    }

    // The moment of the visit, if the digits are those of a moment.
    pub fn visit_moment(&self) -> Option<Moment>
        ensures { option_map stamp_of result ≡ stamp_in self.now.visit }
    {
        Moment::read(&self.visit)
    }

    // The key from which an entry that stands under `own` takes its refills, if it takes any.
    pub fn source(&self, own: Key) -> Option<Key>
        ensures { result ≡ source own self.now }
    {
        match self.origin {
            None if is_dispensing(self.category) => None,
            None => Some(own),
            origin => origin,
        }
    }

    // Whether an entry that stands under `own` has the origin `key`, and `own` is another key.
    pub fn dispenses(&self, own: &Key, key: &Key) -> bool
        ensures { result ≡ dispenses key.now own.now self.now }
    {
        *own != *key && self.origin == Some(*key)
    }

    // Whether an entry that stands under `own` takes the refill of `key`, and `own` is another key than `than`.
    pub fn takes(&self, own: &Key, key: &Key, refill: u8, than: &Key) -> bool
        ensures { result ≡ takes_for key.now refill than.now own.now self.now }
    {
        *own != *than && self.source(*own) == Some(*key) && self.refills.contains(refill)
    }
}

// Whether the category is that of a dispensing: AE or AF.
pub fn is_dispensing(category: [u8; 2]) -> bool
    ensures { result ≡ is_dispensing category }
{
    matches!(category, [b'A', b'E' | b'F'])
}
