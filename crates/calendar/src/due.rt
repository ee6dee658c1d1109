// Until when a visit may be corrected.
ghost use Rattle.std.specs.Prelude.{◌≡◌};
ghost use Rattle.calendar.specs.Days.{date_of};
ghost use Rattle.calendar.specs.Due.{due_of, DueLaw, Term, is_past_due, Samples};

use crate::day::Day;
use crate::month::Month;

impl Day {
    // The due day of a visit on this day: the last day of the next month.
    pub fn due(self) -> Day
        ensures value { date_of result ≡ due_of (date_of self) }
        ensures law { DueLaw (date_of self) (date_of result) }
        ensures term { Term due_of }
        ensures samples { Samples }
    {
        Month::from(self).next().last_day()
    }

    // Whether on this day it is too late to correct a visit: its due day lies before.
    pub fn is_past_due(self, visit: Day) -> bool
        ensures { result ≡ is_past_due (date_of self) (date_of visit) }
    {
        visit.due() < self
    }
}
