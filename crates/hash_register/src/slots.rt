// Searches among slots, and the removal from them.
ghost use Rattle.std.specs.Prelude.{◌≡◌, ◌<◌, ◌≤◌, ℕ, length, MatchOption, true, is_some};
ghost use Rattle.hash_register.specs.Slots.{slot, IsReached, Ends, Follows, Vacates};

use crate::home::home;
use register::entry::Entry;
use register::key::Key;

pub(crate) type Slot = Option<(Key, Entry)>;

// Where a search for the key from a slot on ends.
pub(crate) fn search(slots: &[Slot], from: usize, key: &Key) -> usize
    requires { from ≤ length slots.now }
    ensures { Ends slots.now from key.now result }
{
    for i in from..slots.len() {
        match slots[i] {
            Some((other, _)) if other != *key => {}
            _ => return i,
        }
    }
    slots.len()
}

// A slot past the gap whose key may stand in the gap.
fn follower(slots: &[Slot], gap: usize, homes: usize) -> Option<usize>
    requires homes { 0 < homes }
    requires gap { gap < length slots.now }
    requires reached { IsReached homes slots.now }
    ensures { MatchOption result ((i : ℕ) → ¬ Follows homes slots.now gap i) (Follows homes slots.now gap) }
{
    for i in gap + 1..slots.len() {
        match slots[i] {
            None => return None,
            Some((key, _)) if home(&key, homes) <= gap => return Some(i),
            Some(_) => {}
        }
    }
    None
}

// Takes the key in the slot `gap` away, and draws later ones back, so that each is still reached.
pub(crate) fn vacate(slots: &mut [Slot], mut gap: usize, homes: usize)
    requires homes { 0 < homes }
    requires gap { gap < length slots.old }
    requires filled { is_some (slot slots.old gap) ≡ true }
    requires reached { IsReached homes slots.old }
    ensures { Vacates homes slots.old gap slots.new }
{
    while let Some(i) = follower(slots, gap, homes) {
        slots[gap] = slots[i];
        gap = i;
    }
    slots[gap] = None;
}
