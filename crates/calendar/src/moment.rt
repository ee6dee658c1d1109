// A moment: a day and a time of that day. The invariants say that both are real.
ghost use Rattle.std.specs.Prelude.{◌≡◌, IsTrue, Some};
ghost use Rattle.std.specs.Option.{option_map};
ghost use Rattle.calendar.specs.Clock.{is_on_clock, numbered_stamp, stamp_in};
ghost use Rattle.calendar.specs.Exact.{Reads};

use crate::day::Day;
use crate::digits::two_digits;

#[derive(Clone, Copy, PartialEq, Eq, Debug)]
pub struct Moment {
    pub day: Day,
    pub hour: u8,
    pub minute: u8,
    pub second: u8,
    ghost ok: { IsTrue (is_on_clock hour minute second) },
}

impl Moment {
    ghost use Rattle.calendar.specs.Days.{date_of};
    ghost use Rattle.calendar.specs.Moments.{stamp_of, written_moment};

    // The moment of a day at these numbers, if there is one.
    pub fn new(day: Day, hour: u8, minute: u8, second: u8) -> Option<Moment>
        ensures { option_map stamp_of result ≡ numbered_stamp (Some (date_of day)) hour minute second }
    {
        if hour >= 24 || minute >= 60 || second >= 60 {
            return None;
        }
        Some(Moment {
            day,
            hour,
            minute,
            second,
        })
    }

    // The moment that thirteen digits write: that moment exactly, and none only if no moment is written so. No `TryFrom`, as
    // for a day.
    #[tactic(auto, using(crate::proofs::Parts::moments))]
    pub fn read(bytes: &[u8]) -> Option<Moment>
        ensures value { option_map stamp_of result ≡ stamp_in bytes.now }
        ensures exact { Reads written_moment bytes.now result }
    {
        let &[ref day @ .., h, i, m, n, s, t] = bytes else {
            return None;
        };
        Moment::new(
            Day::read(day)?,
            two_digits(h, i)?,
            two_digits(m, n)?,
            two_digits(s, t)?,
        )
    }
}
