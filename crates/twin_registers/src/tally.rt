// How often each reply came. A count stops at the greatest number of 64 bits.
ghost use Rattle.std.specs.Prelude.{◌≡◌, ◌≢◌, ◌↔◌, IsTrue};

use register::entry::Entry;
use register::requests::{Reply, Request};
use std::fmt;

#[derive(Clone, Copy, PartialEq, Eq, Debug)]
pub struct Tally {
    pub requests: u64,
    pub found: u64,
    pub not_found: u64,
    pub put: u64,
    pub refused: u64,
    pub removed: u64,
    pub not_removed: u64,
    pub yes: u64,
    pub no: u64,
    // how often two replies to one request differed
    pub differing: u64,
}

impl Tally {
    ghost use Rattle.twin_registers.specs.Tallies.{no_replies, with_reply, with_difference};

    pub fn new() -> Tally
        ensures { result ≡ no_replies }
    {
        Tally {
            requests: 0,
            found: 0,
            not_found: 0,
            put: 0,
            refused: 0,
            removed: 0,
            not_removed: 0,
            yes: 0,
            no: 0,
            differing: 0,
        }
    }

    // One reply more.
    fn note(&mut self, request: &Request, reply: &Reply)
        ensures { self.new ≡ with_reply self.old request.now reply.now }
    {
        self.requests = self.requests.saturating_add(1);
        match (request, reply) {
            (_, Reply::Entry(Some(_))) => self.found = self.found.saturating_add(1),
            (_, Reply::Entry(None)) => self.not_found = self.not_found.saturating_add(1),
            (_, Reply::Put(Ok(()))) => self.put = self.put.saturating_add(1),
            (_, Reply::Put(Err(_))) => self.refused = self.refused.saturating_add(1),
            (Request::Remove { .. }, Reply::Told(true)) => {
                self.removed = self.removed.saturating_add(1)
            }
            (Request::Remove { .. }, Reply::Told(false)) => {
                self.not_removed = self.not_removed.saturating_add(1)
            }
            (_, Reply::Told(true)) => self.yes = self.yes.saturating_add(1),
            (_, Reply::Told(false)) => self.no = self.no.saturating_add(1),
        }
    }

    // Two replies more, to one request: the first is counted by what it says, and the other by whether it is the same.
    pub fn note_pair(&mut self, request: &Request, reply: &Reply, other: &Reply)
        ensures same { reply.now ≡ other.now → self.new ≡ with_reply self.old request.now reply.now }
        ensures differing { reply.now ≢ other.now → self.new ≡ with_difference (with_reply self.old request.now reply.now) }
    {
        self.note(request, reply);
        if !are_same(reply, other) {
            self.differing = self.differing.saturating_add(1);
        }
    }
}

// Whether the replies are the same, case by case.
fn are_same(reply: &Reply, other: &Reply) -> bool
    ensures { IsTrue result ↔ (reply.now ≡ other.now) }
{
    match (reply, other) {
        (Reply::Entry(Some(entry)), Reply::Entry(Some(other))) => same_entry(entry, other),
        (Reply::Entry(None), Reply::Entry(None)) => true,
        (Reply::Put(put), Reply::Put(other)) => put.is_ok() == other.is_ok(),
        (Reply::Told(told), Reply::Told(other)) => *told == *other,
        _ => false,
    }
}

fn same_entry(entry: &Entry, other: &Entry) -> bool
    ensures { IsTrue result ↔ (entry.now ≡ other.now) }
{
    *entry == *other
}

impl fmt::Display for Tally {
    fn fmt<W: fmt::Write>(&self, f: &mut fmt::Formatter<W>) -> fmt::Result {
        let Tally {
            requests,
            found,
            not_found,
            put,
            refused,
            ..
        } = self;
        write!(
            f,
            "{requests} requests: {found} found, {not_found} not found, {put} put, {refused} refused, "
        )?;
        let Tally {
            removed,
            not_removed,
            yes,
            no,
            differing,
            ..
        } = self;
        write!(
            f,
            "{removed} removed, {not_removed} not removed, {yes} yes, {no} no; {differing} differ"
        )
    }
}
