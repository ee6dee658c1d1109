// What stands against a filing.
ghost use Rattle.std.specs.Prelude.{◌≡◌, IsTrue, ◌↔◌, ◌&&◌, nat_lt};
ghost use Rattle.std.specs.List.{list_any};
ghost use Rattle.calendar.specs.Days.{date_of};
ghost use Rattle.register.specs.Contents.{TakenElsewhere};
ghost use Rattle.register.specs.Refills.{has_refill};
ghost use Rattle.settling.specs.Against.{is_kept, is_unmatched, is_overdue, is_late, is_unfit, origin_fails, TakesTaken, Unfillable, is_uncancellable, refill_numbers};

use calendar::day::Day;
use filings::filing::{Deed, Filing};
use register::entry::{Entry, is_dispensing};
use register::key::Key;
use register::register::Register;

const REFILL_NUMBERS: [u8; 9] = [1, 2, 3, 4, 5, 6, 7, 8, 9];

// A visit under a placeholder is not kept.
pub(crate) fn is_kept(key: &Key, deed: &Deed) -> bool
    ensures { result ≡ is_kept key.now deed.now }
{
    match deed {
        Deed::Visit(_) => !key.is_placeholder(),
        _ => true,
    }
}

pub(crate) fn is_unmatched(deed: &Deed, under: Option<Entry>) -> bool
    ensures { result ≡ is_unmatched deed.now under }
{
    match deed {
        Deed::Visit(_) => false,
        Deed::Cancel(person) | Deed::Delete(person) => match under {
            Some(entry) => !person.is_of(&entry),
            None => true,
        },
    }
}

fn is_overdue(today: Day, entry: &Entry) -> bool
    ensures { result ≡ is_overdue (date_of today) entry.now }
{
    match entry.visit_moment() {
        Some(moment) => today.is_past_due(moment.day),
        None => false,
    }
}

pub(crate) fn is_late(today: Day, deed: &Deed, under: Option<Entry>) -> bool
    ensures { result ≡ is_late (date_of today) deed.now under }
{
    let visit_is_late = match deed {
        Deed::Visit(entry) => is_overdue(today, entry),
        _ => false,
    };
    visit_is_late
        || match under {
            Some(entry) => is_overdue(today, &entry),
            None => false,
        }
}

// Whether the entry takes a refill that its prescription does not allow so often.
fn takes_beyond(entry: &Entry, times: u8) -> bool
    ensures { result ≡ list_any (λ n. has_refill entry.now.refills n && nat_lt times n) refill_numbers }
{
    REFILL_NUMBERS
        .iter()
        .any(|n| entry.refills.contains(*n) && times < *n)
}

fn is_unfit(entry: &Entry, origin: &Entry) -> bool
    ensures { result ≡ is_unfit entry.now origin.now }
{
    origin.cancelled || takes_beyond(entry, origin.times)
}

fn origin_fails<R: Register>(register: &R, key: &Key, entry: &Entry) -> bool
    ensures { result ≡ origin_fails (R.contents register.now) key.now entry.now }
{
    let Some(origin) = entry.origin else {
        return false;
    };
    origin == *key
        || match register.look_up(&origin) {
            Some(standing) => is_unfit(entry, &standing),
            None => false,
        }
}

// Whether the entry takes the refill of `source`, and that is taken under a key other than `key`.
fn is_taken_twice<R: Register>(
    register: &R,
    source: &Key,
    refill: u8,
    key: &Key,
    entry: &Entry,
) -> bool
    ensures { IsTrue result ↔ (IsTrue (has_refill entry.now.refills refill) × TakenElsewhere (R.contents register.now) source.now refill key.now) }
{
    entry.refills.contains(refill) && register.is_taken_elsewhere(source, refill, key)
}

fn takes_taken<R: Register>(register: &R, key: &Key, entry: &Entry) -> bool
    ensures { IsTrue result ↔ TakesTaken (R.contents register.now) key.now entry.now }
{
    let Some(source) = entry.source(*key) else {
        return false;
    };
    REFILL_NUMBERS
        .iter()
        .any(|n| is_taken_twice(register, &source, *n, key, entry))
}

pub(crate) fn is_unfillable<R: Register>(register: &R, filing: &Filing) -> bool
    ensures { IsTrue result ↔ Unfillable (R.contents register.now) filing.now.key filing.now.deed }
{
    match filing.deed {
        Deed::Visit(entry) => {
            origin_fails(register, &filing.key, &entry)
                || takes_taken(register, &filing.key, &entry)
        }
        _ => false,
    }
}

pub(crate) fn is_uncancellable(deed: &Deed, under: Option<Entry>) -> bool
    ensures { result ≡ is_uncancellable deed.now under }
{
    match (deed, under) {
        (Deed::Cancel(_), Some(entry)) => {
            is_dispensing(entry.category) || entry.times == 0 || entry.cancelled
        }
        _ => false,
    }
}
