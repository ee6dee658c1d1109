// What every register can do, by the table.
ghost use Rattle.ordered_register.specs.Meaning.{contents_of};
ghost use Rattle.register.proofs.Holding.{finite};
ghost use Rattle.register.proofs.Sameness.{distinct};

use crate::store::OrderedRegister;
use crate::walks::{any_dispenses, any_takes};
use register::entry::Entry;
use register::key::Key;
use register::register::{Full, Register};

impl Register for OrderedRegister {
    ghost contents = { contents_of };

    fn look_up(&self, key: &Key) -> Option<Entry> {
        self.table.get(key).copied()
    }

    fn put(&mut self, key: Key, entry: Entry) -> Result<(), Full> {
        match self.table.put(key, entry) {
            Ok(_) => Ok(()),
            Err(_) => Err(Full),
        }
    }

    fn remove(&mut self, key: &Key) -> bool {
        self.table.remove(key).is_some()
    }

    fn is_dispensed_elsewhere(&self, key: &Key) -> bool {
        any_dispenses(self.table.rows(), key)
    }

    fn is_taken_elsewhere(&self, key: &Key, refill: u8, than: &Key) -> bool {
        any_takes(self.table.rows(), key, refill, than)
    }

    ghost finite = { λ r. finite r.table.entries r.table.most (distinct _ r.rising) r.within };
}
