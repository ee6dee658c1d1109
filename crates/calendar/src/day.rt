// A day of the calendar. The invariant says that it is real, so an unreal one cannot be made.
ghost use Rattle.std.specs.Prelude.{◌≡◌, IsTrue};
ghost use Rattle.std.specs.Option.{option_map};
ghost use Rattle.calendar.specs.Calendar.{is_real};
ghost use Rattle.calendar.specs.Exact.{Reads};
ghost use Rattle.calendar.specs.Written.{numbered_date, date_in};

use crate::digits::{three_digits, two_digits};
use crate::month::Month;

#[derive(Clone, Copy, PartialEq, Eq, Debug)]
pub struct Day {
    pub year: u16,
    pub month: u8,
    pub day: u8,
    ghost ok: { IsTrue (is_real year month day) },
}

impl Day {
    ghost use Rattle.calendar.specs.Days.{date_of, written_day};

    // The day of these numbers, if there is one.
    pub fn new(year: u16, month: u8, day: u8) -> Option<Day>
        ensures { option_map date_of result ≡ numbered_date year month day }
    {
        let last = Month::new(year, month)?.length();
        if !(1..=last).contains(&day) {
            return None;
        }
        Some(Day { year, month, day })
    }

    // The day that seven digits write: that day exactly, and none only if no day is written so. An `Option` and no `TryFrom`,
    // since there is one way to fail and nothing to tell of it.
    #[tactic(auto, using(crate::proofs::Parts::days))]
    pub fn read(bytes: &[u8]) -> Option<Day>
        ensures value { option_map date_of result ≡ date_in bytes.now }
        ensures exact { Reads written_day bytes.now result }
    {
        let &[a, b, c, m, n, d, e] = bytes else {
            return None;
        };
        Day::new(three_digits(a, b, c)?, two_digits(m, n)?, two_digits(d, e)?)
    }
}
