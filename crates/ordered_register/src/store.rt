// The entries in one ordered table: a look-up halves it.
ghost use Rattle.std.specs.Prelude.{◌≡◌, ◌≤◌, IfOk, length};
ghost use Rattle.std.specs.List.Sorted.{IsStrictlySortedBy, IsStrictlySortedBy-prop};
ghost use Rattle.std.specs.Map.{keys_of};
ghost use Rattle.register.specs.Contents.{begun};
ghost use Rattle.register.specs.Keys.{key_cmp};

use ordered::table::OrderedTable;
use register::entry::Entry;
use register::key::Key;
use register::register::MOST_ENTRIES;
use std::alloc::{AllocError, Global};

#[derive(Drop)]
pub struct OrderedRegister {
    pub(crate) table: OrderedTable<Key, Entry>,
    ghost rising: { IsStrictlySortedBy key_cmp (keys_of table.entries) } by { IsStrictlySortedBy-prop key_cmp (keys_of table.entries) },
    ghost within: { length table.entries ≤ table.most },
}

impl OrderedRegister {
    ghost use Rattle.ordered_register.specs.Meaning.{contents_of};

    // A register for so many entries, and for 65,536, if more are asked for. Only here can memory be wanting.
    pub fn new(alloc: Global, entries: usize) -> Result<OrderedRegister, AllocError>
        ensures { IfOk result (λ r. contents_of r ≡ begun entries) }
    {
        Ok(OrderedRegister {
            table: OrderedTable::new(alloc, entries.min(MOST_ENTRIES))?,
        })
    }
}
