// The register: slots for its keys, and room to spare beside them, so that a search is soon over however many it holds.
ghost use Rattle.std.proofs.Props.{props};
ghost use Rattle.std.specs.Prelude.{◌≡◌, ◌<◌, IfOk, length};
ghost use Rattle.register.specs.Contents.{begun};
ghost use Rattle.hash_register.specs.Homes.{home, homes};
ghost use Rattle.hash_register.specs.Slots.{Ends};
ghost use Rattle.hash_register.specs.Tables.{IsTable};

use crate::home::{home, homes};
use crate::slots::{Slot, search, vacate};
use crate::walks::{any_dispenses, any_takes};
use register::entry::Entry;
use register::key::Key;
use register::register::{Full, MOST_ENTRIES, Register};
use std::alloc::{AllocError, Global};

#[derive(Drop)]
pub struct HashRegister {
    slots: Vec<Slot>,
    count: usize,
    most: usize,
    ghost table: { IsTable most count slots.items } by { Prim.hlevel props },
}

impl HashRegister {
    ghost use Rattle.hash_register.specs.Meaning.{contents_of};

    // A register for so many entries, and for 65,536, if more are asked for. Only here can memory be wanting.
    pub fn new(alloc: Global, entries: usize) -> Result<HashRegister, AllocError>
        ensures { IfOk result (λ r. contents_of r ≡ begun entries) }
    {
        let most = entries.min(MOST_ENTRIES);
        let slots = vec![in alloc; None; homes(most) + most]?;
        Ok(HashRegister {
            slots,
            count: 0,
            most,
        })
    }

    // The slot that has the key, or the one that may take it.
    fn find(&self, key: &Key) -> usize
        ensures ends { Ends self.now.slots.items (home (homes self.now.most) key.now) key.now result }
        ensures within { result < length self.now.slots.items }
    {
        search(&self.slots, home(key, homes(self.most)), key)
    }
}

impl Register for HashRegister {
    ghost use Rattle.hash_register.specs.Meaning.{contents_of, finite};

    ghost contents = { contents_of };

    ghost finite = { finite };

    fn look_up(&self, key: &Key) -> Option<Entry> {
        self.slots[self.find(key)].map(|(_, entry)| entry)
    }

    fn put(&mut self, key: Key, entry: Entry) -> Result<(), Full> {
        let place = self.find(&key);
        let is_new = self.slots[place].is_none();
        if is_new && self.count == self.most {
            return Err(Full);
        }
        self.slots[place] = Some((key, entry));
        self.count += usize::from(is_new);
        Ok(())
    }

    fn remove(&mut self, key: &Key) -> bool {
        let place = self.find(key);
        if self.slots[place].is_none() {
            return false;
        }
        vacate(&mut self.slots, place, homes(self.most));
        self.count -= 1;
        true
    }

    fn is_dispensed_elsewhere(&self, key: &Key) -> bool {
        any_dispenses(&self.slots, key)
    }

    fn is_taken_elsewhere(&self, key: &Key, refill: u8, than: &Key) -> bool {
        any_takes(&self.slots, key, refill, than)
    }
}
