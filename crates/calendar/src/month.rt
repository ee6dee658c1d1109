// A month of the years 1 to 999: how long it is, and which comes next.
ghost use Rattle.std.specs.Prelude.{◌≡◌, IsTrue, false, MatchOption};
ghost use Rattle.calendar.specs.Calendar.{is_leap, is_month, month_length};
ghost use Rattle.calendar.specs.Days.{date_of};
ghost use Rattle.calendar.specs.Due.{last_of, month_after};

use crate::day::Day;

#[derive(Clone, Copy)]
pub(crate) struct Month {
    pub(crate) year: u16,
    pub(crate) number: u8,
    ghost ok: { IsTrue (is_month year number) },
}

impl Month {
    // The month of these numbers, if there is one.
    pub(crate) fn new(year: u16, number: u8) -> Option<Month>
        ensures { MatchOption result (is_month year number ≡ false) (λ m. (m.year ≡ year) × (m.number ≡ number)) }
    {
        if !(1..=999).contains(&year) || !(1..=12).contains(&number) {
            return None;
        }
        Some(Month { year, number })
    }

    fn is_in_leap_year(self) -> bool
        ensures { result ≡ is_leap self.year }
    {
        let gregorian = self.year + 1911;
        gregorian % 4 == 0 && (gregorian % 100 != 0 || gregorian % 400 == 0)
    }

    // How many days it has.
    pub(crate) fn length(self) -> u8
        ensures { result ≡ month_length self.year self.number }
    {
        match self.number {
            2 if self.is_in_leap_year() => 29,
            2 => 28,
            4 | 6 | 9 | 11 => 30,
            _ => 31,
        }
    }

    // Its last day.
    pub(crate) fn last_day(self) -> Day
        ensures { date_of result ≡ last_of (self.year, self.number) }
    {
        Day {
            year: self.year,
            month: self.number,
            day: self.length(),
        }
    }

    // The month after; the last of all is followed by itself.
    pub(crate) fn next(self) -> Month
        ensures { (result.year, result.number) ≡ month_after self.year self.number }
    {
        if self.number < 12 {
            Month {
                year: self.year,
                number: self.number + 1,
            }
        } else if self.year < 999 {
            Month {
                year: self.year + 1,
                number: 1,
            }
        } else {
            self
        }
    }
}

// The month that a day lies in.
impl From<Day> for Month {
    ghost from_gives = { λ d m. (m.year ≡ d.year) × (m.number ≡ d.month) };

    fn from(day: Day) -> Month {
        Month {
            year: day.year,
            number: day.month,
        }
    }
}
