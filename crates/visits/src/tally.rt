// How many lines got a due day, and how many did not. A count stops at the greatest number of 64 bits.
ghost use Rattle.std.specs.Prelude.{◌≡◌, [], ◌++◌, Some, codes, decimal};
ghost use Rattle.visits.specs.Sessions.{Counted, tally_with};

use crate::answer::Answer;
use std::fmt;

#[derive(Clone, Copy, PartialEq, Eq, Debug)]
pub struct Tally {
    pub due: u64,
    pub no_day: u64,
}

impl Tally {
    // Nothing counted yet.
    pub fn new() -> Tally
        ensures { Counted [] result }
    {
        Tally { due: 0, no_day: 0 }
    }

    // One answer more.
    pub fn note(&mut self, answer: Answer)
        ensures { self.new ≡ tally_with self.old answer }
    {
        match answer {
            Ok(_) => self.due = self.due.saturating_add(1),
            Err(_) => self.no_day = self.no_day.saturating_add(1),
        }
    }
}

impl fmt::Display for Tally {
    ghost output = { λ t. Some (decimal t.due ++ (codes " due, " ++ (decimal t.no_day ++ codes " no day"))) };

    fn fmt<W: fmt::Write>(&self, f: &mut fmt::Formatter<W>) -> fmt::Result {
        let Tally { due, no_day } = self;
        write!(f, "{due} due, {no_day} no day")
    }
}
