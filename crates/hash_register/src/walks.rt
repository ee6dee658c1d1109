// Questions about all entries: a walk over the slots.
ghost use Rattle.std.specs.Prelude.{◌≡◌};
ghost use Rattle.std.specs.List.{list_any};
ghost use Rattle.register.specs.Entries.{dispenses, takes_for};
ghost use Rattle.hash_register.specs.Slots.{passes};

use crate::slots::Slot;
use register::key::Key;

pub(crate) fn any_dispenses(slots: &[Slot], key: &Key) -> bool
    ensures { result ≡ list_any (passes (λ row. dispenses key.now row.0 row.1)) slots.now }
{
    slots.iter().any(|slot| matches!(slot, Some((own, entry)) if entry.dispenses(own, key)))
}

pub(crate) fn any_takes(slots: &[Slot], key: &Key, refill: u8, than: &Key) -> bool
    ensures { result ≡ list_any (passes (λ row. takes_for key.now refill than.now row.0 row.1)) slots.now }
{
    slots.iter().any(
        |slot| matches!(slot, Some((own, entry)) if entry.takes(own, key, refill, than)),
    )
}
