// Visits, by their day or by their moment: reading and writing them, and their days.
ghost use Rattle.std.specs.Prelude.{◌≡◌, Some};
ghost use Rattle.calendar.specs.Days.{date_of};
ghost use Rattle.calendar.specs.Due.{due_of};
ghost use Rattle.calendar.specs.Exact.{Reads};
ghost use Rattle.std.specs.Option.{option_map};
ghost use Rattle.visits.specs.Visits.{written_visit, day_of, date_on};

use calendar::day::Day;
use calendar::moment::Moment;
use std::fmt;

#[derive(Clone, Copy, PartialEq, Eq, Debug)]
pub enum Visit {
    On(Day),
    At(Moment),
}

impl Visit {
    // The visit that seven or thirteen digits write. No `TryFrom`, as for a day.
    pub fn read(text: &[u8]) -> Option<Visit>
        ensures value { option_map (λ v. date_of (day_of v)) result ≡ date_on text.now }
        ensures exact { Reads written_visit text.now result }
    {
        // The length tells which of the two it may be, so that a line which writes neither is not read twice.
        match text.len() {
            7 => {
                let day = Day::read(text)?;
                Some(Visit::On(day))
            }
            13 => Moment::read(text).map(Visit::At),
            _ => None,
        }
    }

    // The day of the visit, whatever its time.
    pub fn day(self) -> Day
        ensures { result ≡ day_of self }
    {
        match self {
            Visit::On(day) => day,
            Visit::At(moment) => moment.day,
        }
    }

    // Until when the visit may be corrected.
    pub fn due(self) -> Day
        ensures { date_of result ≡ due_of (date_of (day_of self)) }
    {
        self.day().due()
    }
}

impl fmt::Display for Visit {
    ghost output = { λ v. Some (written_visit v) };

    fn fmt<W: fmt::Write>(&self, f: &mut fmt::Formatter<W>) -> fmt::Result {
        match self {
            Visit::On(day) => write!(f, "{day}"),
            Visit::At(moment) => write!(f, "{moment}"),
        }
    }
}
