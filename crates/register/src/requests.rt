// Requests to a register of any kind, each with its reply.
ghost use Rattle.register.specs.Requests.{Answers, Served, Alike};

use crate::entry::Entry;
use crate::key::Key;
use crate::register::{Full, Register};

#[derive(Clone, Copy)]
pub enum Request {
    LookUp { key: Key },
    Put { key: Key, entry: Entry },
    Remove { key: Key },
    IsDispensedElsewhere { key: Key },
    IsTakenElsewhere { key: Key, refill: u8, than: Key },
}

#[derive(Clone, Copy, PartialEq, Eq, Debug)]
pub enum Reply {
    Entry(Option<Entry>),
    Put(Result<(), Full>),
    Told(bool),
}

// The right reply to a request. `serve` adds that no other is right.
fn answer<R: Register>(register: &mut R, request: Request) -> Reply
    ensures { Answers (R.contents register.old) request result (R.contents register.new) }
{
    match request {
        Request::LookUp { key } => Reply::Entry(register.look_up(&key)),
        Request::Put { key, entry } => Reply::Put(register.put(key, entry)),
        Request::Remove { key } => Reply::Told(register.remove(&key)),
        Request::IsDispensedElsewhere { key } => Reply::Told(register.is_dispensed_elsewhere(&key)),
        Request::IsTakenElsewhere { key, refill, than } => {
            Reply::Told(register.is_taken_elsewhere(&key, refill, &than))
        }
    }
}

// Does what is asked of a register, of any kind: reply and contents are the right ones, and no others are right.
#[tactic(auto, using(crate::proofs::OneAnswer::served))]
pub fn serve<R: Register>(register: &mut R, request: Request) -> Reply
    ensures { Served (R.contents register.old) request result (R.contents register.new) }
{
    answer(register, request)
}

// Puts one request to two registers of any kinds: if they held the same, they reply the same and hold the same afterwards.
#[tactic(auto, using(crate::proofs::OneAnswer::alike))]
pub fn serve_both<A: Register, B: Register>(
    one: &mut A,
    other: &mut B,
    request: Request,
) -> (Reply, Reply)
    ensures one { Served (A.contents one.old) request result.0 (A.contents one.new) }
    ensures other { Served (B.contents other.old) request result.1 (B.contents other.new) }
    ensures alike { Alike (A.contents one.old) (B.contents other.old) result (A.contents one.new) (B.contents other.new) }
{
    (serve(one, request), serve(other, request))
}
