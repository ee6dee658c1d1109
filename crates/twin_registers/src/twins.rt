// A register of each kind, asked the same.
ghost use Rattle.std.specs.Prelude.{◌≡◌};
ghost use Rattle.ordered_register.specs.Meaning.{contents_of};
ghost use Rattle.hash_register.specs.Meaning.{contents_of as scattered_contents_of};

use crate::tally::Tally;
use hash_register::store::HashRegister;
use ordered_register::store::OrderedRegister;
use register::requests::{Request, serve_both};
use std::alloc::{AllocError, Global};
use std::mem;

#[derive(Drop)]
pub struct Twins {
    ordered: OrderedRegister,
    scattered: HashRegister,
    tally: Tally,
    ghost alike: { contents_of ordered ≡ scattered_contents_of scattered },
    ghost none_differ: { tally.differing ≡ 0 },
}

impl Twins {
    ghost use Rattle.std.specs.Prelude.{IfOk};
    ghost use Rattle.register.specs.Contents.{begun};
    ghost use Rattle.twin_registers.specs.Tallies.{no_replies};
    ghost use Rattle.twin_registers.specs.Asking.{held, Asked};

    pub fn new(alloc: Global, entries: usize) -> Result<Twins, AllocError>
        ensures empty { IfOk result (λ t. held t ≡ begun entries) }
        ensures untold { IfOk result (λ t. t.tally ≡ no_replies) }
    {
        Ok(Twins {
            ordered: OrderedRegister::new(alloc, entries)?,
            scattered: HashRegister::new(alloc, entries)?,
            tally: Tally::new(),
        })
    }

    // Asks both, and counts the reply.
    pub fn ask(&mut self, request: Request)
        ensures { Asked self.old request self.new }
    {
        let (reply, other) = serve_both(&mut self.ordered, &mut self.scattered, request);
        self.tally.note_pair(&request, &reply, &other);
    }

    // What was counted since the last time. It is proved that no two replies differed.
    pub fn take_tally(&mut self) -> Tally
        ensures counted { result ≡ self.old.tally }
        ensures none_differ { result.differing ≡ 0 }
        ensures anew { self.new.tally ≡ no_replies }
        ensures stays { held self.new ≡ held self.old }
    {
        mem::replace(&mut self.tally, Tally::new())
    }
}
