// A filing is settled with the register.
ghost use Rattle.std.specs.Prelude.{◌≡◌, IsTrue, false, ◌&&◌, not, if◌then◌else◌, Some, None, is_none, nat_lt};
ghost use Rattle.calendar.specs.Days.{date_of};
ghost use Rattle.faults.specs.Rules.{number_of};
ghost use Rattle.faults.specs.declared.rules.Rule.TheVariants.{NoRoom};
ghost use Rattle.register.specs.Contents.{has_room, put_in};
ghost use Rattle.settling.specs.Against.{Against, is_kept, is_unmatched};
ghost use Rattle.settling.specs.Settled.{Settled, done, marked};
ghost use Rattle.settling.specs.Verdicts.{IsLowest};

use crate::against::{is_kept, is_late, is_uncancellable, is_unfillable, is_unmatched};
use calendar::day::Day;
use faults::rules::Rule;
use filings::filing::{Deed, Filing};
use register::entry::Entry;
use register::key::Key;
use register::register::Register;

// The lowest rule below 35 that stands against the filing. The last one shows when its entry is put.
fn lowest_against<R: Register>(
    register: &R,
    today: Day,
    filing: &Filing,
    under: Option<Entry>,
) -> Option<Rule>
    requires { under ≡ (R.contents register.now).at filing.now.key }
    ensures { IsLowest (λ r. IsTrue (nat_lt (number_of r) 35) × Against (R.contents register.now) (date_of today) filing.now r) result }
{
    if is_unmatched(&filing.deed, under) {
        Some(Rule::Unmatched)
    } else if is_late(today, &filing.deed, under) {
        Some(Rule::Late)
    } else if !is_kept(&filing.key, &filing.deed) {
        None
    } else if under.is_some() && register.is_dispensed_elsewhere(&filing.key) {
        Some(Rule::Dispensed)
    } else if is_unfillable(register, filing) {
        Some(Rule::Prescription)
    } else if is_uncancellable(&filing.deed, under) {
        Some(Rule::Uncancellable)
    } else {
        None
    }
}

// Does the deed, where what it takes back stands; rule 35, if there is no room.
fn carry_out<R: Register>(register: &mut R, filing: &Filing, under: Option<Entry>) -> Option<Rule>
    requires under { under ≡ (R.contents register.old).at filing.now.key }
    requires matched { is_unmatched filing.now.deed under ≡ false }
    ensures answer { result ≡ if is_kept filing.now.key filing.now.deed && not (has_room (R.contents register.old) filing.now.key) then Some NoRoom else None }
    ensures after { R.contents register.new ≡ if is_none result then done (R.contents register.old) filing.now.key filing.now.deed else R.contents register.old }
{
    match filing.deed {
        Deed::Visit(_) if filing.key.is_placeholder() => None,
        Deed::Visit(entry) => put(register, filing.key, marked(false, entry)),
        Deed::Cancel(_) => put(register, filing.key, marked(true, under?)),
        Deed::Delete(_) => {
            register.remove(&filing.key);
            None
        }
    }
}

// The entry, cancelled or not.
fn marked(cancelled: bool, entry: Entry) -> Entry
    ensures { result ≡ marked cancelled entry }
{
    Entry { cancelled, ..entry }
}

// Puts the entry under the key; rule 35, if there is no room.
fn put<R: Register>(register: &mut R, key: Key, entry: Entry) -> Option<Rule>
    ensures answer { result ≡ if has_room (R.contents register.old) key then None else Some NoRoom }
    ensures after { R.contents register.new ≡ put_in (R.contents register.old) key entry }
{
    match register.put(key, entry) {
        Ok(()) => None,
        Err(_) => Some(Rule::NoRoom),
    }
}

// The lowest rule that stands against the filing on the day; if there is none, its deed is done, and else the register stays.
pub fn settle<R: Register>(register: &mut R, today: Day, filing: &Filing) -> Option<Rule>
    ensures { Settled (R.contents register.old) (date_of today) filing.now result (R.contents register.new) }
{
    let under = register.look_up(&filing.key);
    match lowest_against(register, today, filing, under) {
        Some(rule) => Some(rule),
        None => carry_out(register, filing, under),
    }
}
