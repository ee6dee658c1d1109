// From which day to which a code is valid.
ghost use Rattle.std.specs.Prelude.{◌≡◌, IsTrue, not};
ghost use Rattle.std.specs.Option.{option_map};
ghost use Rattle.calendar.specs.Days.{date_of};
ghost use Rattle.calendar.specs.Time.{is_before};
ghost use Rattle.lists.specs.Spans.{span_in, is_in};

use calendar::day::Day;

// The first and the last day, which are both in it.
#[derive(Clone, Copy, PartialEq, Eq, Debug)]
pub struct Span {
    pub first: Day,
    pub last: Day,
    ghost ordered: { IsTrue (not (is_before (date_of last) (date_of first))) },
}

impl Span {
    ghost use Rattle.lists.specs.Entries.{dates_of};

    // The span between the days that seven digits each write, if they do and the last is not before the first.
    #[tactic(auto, using(crate::proofs::Spanning::lt_days))]
    pub fn read(first: &[u8], last: &[u8]) -> Option<Span>
        ensures { option_map dates_of result ≡ span_in first.now last.now }
    {
        let first = Day::read(first)?;
        let last = Day::read(last)?;
        if last < first {
            return None;
        }
        Some(Span { first, last })
    }

    #[tactic(auto, using(crate::proofs::Spanning::le_days))]
    pub fn contains(&self, day: Day) -> bool
        ensures { result ≡ is_in (date_of day) (dates_of self.now) }
    {
        self.first <= day && day <= self.last
    }
}
