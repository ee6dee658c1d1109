// The order of days. By hand: a derived `cmp` says only that the fields are compared, and these clauses say that the order is
// that of time.
ghost use Rattle.std.proofs.Common.{rules};
ghost use Rattle.std.specs.Cmp.{IsTotalOrder, partial_order_from_agreeing_total};
ghost use Rattle.std.specs.Cmp.Rules.{comparing};
ghost use Rattle.std.specs.Ordering.{as_partial_cmp};
ghost use Rattle.std.specs.Prelude.{◌≡◌, IsSomeAnd};
ghost use Rattle.calendar.specs.Days.{date_of, DayOrder, day_cmp, OrderOfTime};
ghost use Rattle.calendar.specs.Time.{ByParts};

use crate::day::Day;
use std::cmp::Ordering;

impl PartialOrd for Day {
    ghost partial_cmp = { as_partial_cmp day_cmp };

    ghost laws = { partial_order_from_agreeing_total day_cmp
        (Prim.search (comparing, rules)) (Prim.search (comparing, rules))
        (Prim.search (comparing, rules)) };

    fn partial_cmp(&self, other: &Day) -> Option<Ordering>
        ensures value { result ≡ as_partial_cmp day_cmp self.now other.now }
        ensures time { IsSomeAnd result (DayOrder self.now other.now) }
    {
        Some(self.cmp(other))
    }
}

impl Ord for Day {
    ghost cmp = { day_cmp };

    ghost total = { Prim.search (comparing, rules) };

    ghost matches_partial_cmp = { Prim.search (comparing, rules) };

    ghost matches_eq = { Prim.search (comparing, rules) };

    fn cmp(&self, other: &Day) -> Ordering
        ensures value { result ≡ day_cmp self.now other.now }
        ensures time { DayOrder self.now other.now result }
        ensures parts { ByParts (date_of self.now) (date_of other.now) result }
        ensures total { IsTotalOrder day_cmp }
        ensures law { OrderOfTime day_cmp }
    {
        self.year
            .cmp(&other.year)
            .then(self.month.cmp(&other.month))
            .then(self.day.cmp(&other.day))
    }
}
