// Days and moments as text: their digits.
ghost use Rattle.std.specs.Prelude.{Some};
ghost use Rattle.calendar.specs.Days.{written_day};
ghost use Rattle.calendar.specs.Moments.{written_moment};

use crate::day::Day;
use crate::moment::Moment;
use std::fmt;

impl fmt::Display for Day {
    ghost output = { λ d. Some (written_day d) };

    fn fmt<W: fmt::Write>(&self, f: &mut fmt::Formatter<W>) -> fmt::Result {
        write!(f, "{:03}{:02}{:02}", self.year, self.month, self.day)
    }
}

impl fmt::Display for Moment {
    ghost output = { λ m. Some (written_moment m) };

    fn fmt<W: fmt::Write>(&self, f: &mut fmt::Formatter<W>) -> fmt::Result {
        write!(
            f,
            "{}{:02}{:02}{:02}",
            self.day, self.hour, self.minute, self.second
        )
    }
}
