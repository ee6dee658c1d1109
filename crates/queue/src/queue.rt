// The register and the code lists that the commands of a queue work on.
ghost use Rattle.std.specs.Prelude.{◌≡◌, length, IfOk, MatchOption, MatchResult, None, Err};
ghost use Rattle.std.specs.Option.{option_and_then};
ghost use Rattle.faults.specs.Order.{Rises};
ghost use Rattle.faults.specs.Reports.{overwritten};
ghost use Rattle.lists.specs.Making.{Makes};
ghost use Rattle.lists.specs.Shapes.{shaped};
ghost use Rattle.register.specs.Contents.{begun};
ghost use Rattle.register.specs.Keys.{key_in};
ghost use Rattle.receiving.specs.Contents.{Read};
ghost use Rattle.receiving.specs.Events.{accepted_in};
ghost use Rattle.receiving.specs.Receiving.{Exact, reply_in, event_of};
ghost use Rattle.receiving.specs.Uses.{UseLaws, LookUpLaws};
ghost use Rattle.queue.specs.Queues.{held, listed, Has, KeepsRegister, KeepsLists, Says};

use commands::command::Kind;
use faults::report::Fault;
use faults::rules::Rule;
use judging::upload::Counts;
use kinds::any_lists::AnyLists;
use kinds::any_register::AnyRegister;
use lists::ordered_lists::{NotMade, OrderedLists};
use lists::row::Row;
use lists::shapes::ShapeLists;
use reader::faults::Refusal;
use receiving::look_up::look_up;
use receiving::receive::{Delivery, receive};
use register::entry::Entry;
use register::register::MOST_ENTRIES;
use std::alloc::{AllocError, Global};

#[derive(Drop)]
pub struct Queue {
    register: AnyRegister,
    lists: AnyLists,
}

impl Queue {
    // An empty scattered register for 65,536 entries, and code lists by shape.
    pub fn new(alloc: Global) -> Result<Queue, AllocError>
        ensures register { IfOk result (λ q. held q ≡ begun 65536) }
        ensures kind { IfOk result (Has Kind.Scattered) }
        ensures lists { IfOk result (λ q. listed q ≡ shaped) }
    {
        Ok(Queue {
            register: AnyRegister::scattered(alloc, MOST_ENTRIES)?,
            lists: AnyLists::Shape(ShapeLists),
        })
    }

    // A new empty register of that kind, for so many entries, and for 65,536, if more are asked for. Without memory for it the one
    // in use stays.
    pub fn renew(&mut self, alloc: Global, kind: Kind, slots: usize) -> Result<(), AllocError>
        ensures register { MatchResult result (λ _. held self.new ≡ begun slots) (λ _. KeepsRegister self.old self.new) }
        ensures kind { IfOk result (λ _. Has kind self.new) }
        ensures lists { KeepsLists self.old self.new }
    {
        self.register = match kind {
            Kind::Ordered => AnyRegister::ordered(alloc, slots)?,
            Kind::Scattered => AnyRegister::scattered(alloc, slots)?,
        };
        Ok(())
    }

    // Code lists by shape from now on.
    pub fn use_shapes(&mut self)
        ensures lists { listed self.new ≡ shaped }
        ensures register { KeepsRegister self.old self.new }
    {
        self.lists = AnyLists::Shape(ShapeLists);
    }

    // Code lists by these rows from now on. If a row is bad, or memory is wanting, those in use stay.
    pub fn use_rows(&mut self, alloc: Global, rows: &[Row<'_>]) -> Result<(), NotMade>
        ensures lists { MatchResult result (λ _. Says rows.now (listed self.new)) (λ e. Makes rows.now (Err e) × KeepsLists self.old self.new) }
        ensures register { KeepsRegister self.old self.new }
    {
        self.lists = AnyLists::Rows(OrderedLists::new(alloc, rows)?);
        Ok(())
    }

    // Takes an upload in, against the register and the code lists in use: see `receive` of `receiving`.
    pub fn receive(
        &mut self,
        delivery: Delivery,
        verdicts: &mut [Option<Rule>],
        faults: &mut [Fault],
    ) -> Result<Counts, Refusal>
        ensures exact { Exact (held self.old) (event_of (listed self.old) delivery.entry verdicts.new faults.new result) (held self.new) }
        ensures verdicts { verdicts.new ≡ overwritten verdicts.old (reply_in result verdicts.new faults.new).verdicts }
        ensures faults { faults.new ≡ overwritten faults.old (reply_in result verdicts.new faults.new).faults }
        ensures read { IfOk result (λ _. Read delivery.entry.upload.now) }
        ensures filed { IfOk result (λ n. n.accepted ≡ length (accepted_in (event_of (listed self.old) delivery.entry verdicts.new faults.new result))) }
        ensures order { Rises (reply_in result verdicts.new faults.new).faults }
        ensures uses { UseLaws (held self.old) (event_of (listed self.old) delivery.entry verdicts.new faults.new result) (held self.new) }
        ensures lists { KeepsLists self.old self.new }
    {
        receive(&mut self.register, &self.lists, delivery, verdicts, faults)
    }

    // The entry that stands under the key of the sender and the identifier; none, if they are no key.
    pub fn look_up(&self, sender: &[u8], identifier: &[u8]) -> Option<Entry>
        ensures value { result ≡ option_and_then (held self.now).at (key_in sender.now identifier.now) }
        ensures uses { MatchOption (key_in sender.now identifier.now) (result ≡ None) (λ k. LookUpLaws (held self.now) k result) }
    {
        look_up(&self.register, sender, identifier)
    }
}
