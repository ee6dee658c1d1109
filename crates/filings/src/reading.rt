// Reading what a record files. Any bytes may stand in its fields; what is read of a record in order is what they mean.
ghost use Rattle.std.specs.Prelude.{◌≡◌};
ghost use Rattle.cells.specs.Cells.{value_at};
ghost use Rattle.filings.specs.Filings.{padded, refills_in, origin_in, entry_in, person_in, deed_in, filing_in};

use crate::filing::{Deed, Filing, Person};
use cells::cells::Cells;
use fields::action::Action;
use fields::field::Field;
use register::entry::{Entry, is_dispensing};
use register::key::Key;
use register::refills::Refills;
use values::numbers::number;

// The first bytes of a value, with zero bytes after it if it is shorter.
fn padded<const N: usize>(value: &[u8]) -> [u8; N]
    ensures { result ≡ padded N value.now }
{
    let mut bytes = [0; N];
    let len = value.len().min(N);
    bytes[..len].copy_from_slice(&value[..len]);
    bytes
}

// The refills that digits write. 0 is none.
fn refills_in(digits: &[u8]) -> Refills
    ensures { result ≡ refills_in digits.now }
{
    let mut refills = Refills::new();
    for digit in digits {
        refills.insert(digit.saturating_sub(b'0'));
    }
    refills
}

// The prescription that a record of the category dispenses: one with a placeholder counts as none.
fn origin_in(category: [u8; 2], sender: &[u8], identifier: &[u8]) -> Option<Key>
    ensures { result ≡ origin_in category sender.now identifier.now }
{
    if !is_dispensing(category) {
        return None;
    }
    let key = Key::read(sender, identifier)?;
    if key.is_placeholder() {
        None
    } else {
        Some(key)
    }
}

fn entry_in(cells: &Cells) -> Entry
    ensures { result ≡ entry_in (value_at cells.now) }
{
    let category = padded(cells.value(Field::M07));
    Entry {
        patient: padded(cells.value(Field::M03)),
        birth: padded(cells.value(Field::M04)),
        category,
        visit: padded(cells.value(Field::M11)),
        origin: origin_in(category, cells.value(Field::M17), cells.value(Field::M16)),
        times: u8::try_from(number(cells.value(Field::M26))).unwrap_or(u8::MAX),
        refills: refills_in(cells.value(Field::M33)),
        cancelled: false,
    }
}

fn person_in(cells: &Cells) -> Person
    ensures { result ≡ person_in (value_at cells.now) }
{
    Person {
        patient: padded(cells.value(Field::M03)),
        birth: padded(cells.value(Field::M04)),
    }
}

impl Deed {
    // What the record does by H01, if that names an action.
    pub fn read(cells: &Cells) -> Option<Deed>
        ensures { result ≡ deed_in (value_at cells.now) }
    {
        match Action::read(cells.value(Field::H01))? {
            Action::Normal | Action::Exceptional => Some(Deed::Visit(entry_in(cells))),
            Action::Cancel => Some(Deed::Cancel(person_in(cells))),
            Action::Delete => Some(Deed::Delete(person_in(cells))),
        }
    }
}

impl Filing {
    // What the record of the sender files, if its fields tell a key and an action. Those of a record in order do.
    pub fn read(sender: &[u8], cells: &Cells) -> Option<Filing>
        ensures { result ≡ filing_in sender.now (value_at cells.now) }
    {
        Some(Filing {
            key: Key::read(sender, cells.value(Field::M15))?,
            deed: Deed::read(cells)?,
        })
    }
}
