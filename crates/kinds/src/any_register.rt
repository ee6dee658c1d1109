// A register of either kind.
ghost use Rattle.std.specs.Prelude.{◌≡◌, IfOk};
ghost use Rattle.register.specs.Contents.{begun};
ghost use Rattle.kinds.specs.Registers.{contents_of, finite, IsOrdered, IsScattered};

use hash_register::store::HashRegister;
use ordered_register::store::OrderedRegister;
use register::entry::Entry;
use register::key::Key;
use register::register::{Full, Register};
use std::alloc::{AllocError, Global};

#[derive(Drop)]
pub enum AnyRegister {
    // its entries stand in the order of their keys
    Ordered(OrderedRegister),
    // its entries stand where a hash of the key says
    Scattered(HashRegister),
}

impl AnyRegister {
    // An ordered register for so many entries, and for 65,536, if more are asked for. Only here can memory be wanting.
    pub fn ordered(alloc: Global, entries: usize) -> Result<AnyRegister, AllocError>
        ensures empty { IfOk result (λ r. contents_of r ≡ begun entries) }
        ensures kind { IfOk result IsOrdered }
    {
        Ok(AnyRegister::Ordered(OrderedRegister::new(alloc, entries)?))
    }

    // A scattered one.
    pub fn scattered(alloc: Global, entries: usize) -> Result<AnyRegister, AllocError>
        ensures empty { IfOk result (λ r. contents_of r ≡ begun entries) }
        ensures kind { IfOk result IsScattered }
    {
        Ok(AnyRegister::Scattered(HashRegister::new(alloc, entries)?))
    }
}

impl Register for AnyRegister {
    ghost contents = { contents_of };

    fn look_up(&self, key: &Key) -> Option<Entry> {
        match self {
            AnyRegister::Ordered(register) => register.look_up(key),
            AnyRegister::Scattered(register) => register.look_up(key),
        }
    }

    fn put(&mut self, key: Key, entry: Entry) -> Result<(), Full> {
        match self {
            AnyRegister::Ordered(register) => register.put(key, entry),
            AnyRegister::Scattered(register) => register.put(key, entry),
        }
    }

    fn remove(&mut self, key: &Key) -> bool {
        match self {
            AnyRegister::Ordered(register) => register.remove(key),
            AnyRegister::Scattered(register) => register.remove(key),
        }
    }

    fn is_dispensed_elsewhere(&self, key: &Key) -> bool {
        match self {
            AnyRegister::Ordered(register) => register.is_dispensed_elsewhere(key),
            AnyRegister::Scattered(register) => register.is_dispensed_elsewhere(key),
        }
    }

    fn is_taken_elsewhere(&self, key: &Key, refill: u8, than: &Key) -> bool {
        match self {
            AnyRegister::Ordered(register) => register.is_taken_elsewhere(key, refill, than),
            AnyRegister::Scattered(register) => register.is_taken_elsewhere(key, refill, than),
        }
    }

    ghost finite = { finite };
}
