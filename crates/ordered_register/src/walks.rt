// Questions about all entries: a walk over the rows.
ghost use Rattle.std.specs.Prelude.{◌≡◌};
ghost use Rattle.std.specs.List.{list_any};
ghost use Rattle.register.specs.Entries.{dispenses, takes_for};

use register::entry::Entry;
use register::key::Key;

pub(crate) fn any_dispenses(rows: &[(Key, Entry)], key: &Key) -> bool
    ensures { result ≡ list_any (λ row. dispenses key.now row.0 row.1) rows.now }
{
    rows.iter().any(|(own, entry)| entry.dispenses(own, key))
}

pub(crate) fn any_takes(rows: &[(Key, Entry)], key: &Key, refill: u8, than: &Key) -> bool
    ensures { result ≡ list_any (λ row. takes_for key.now refill than.now row.0 row.1) rows.now }
{
    rows.iter()
        .any(|(own, entry)| entry.takes(own, key, refill, than))
}
