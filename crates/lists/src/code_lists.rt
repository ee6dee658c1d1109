// What every source of code lists promises.
ghost use Rattle.std.specs.Prelude.{◌≡◌, ℕ, IsTrue, List};
ghost use Rattle.calendar.specs.Calendar.{Date};
ghost use Rattle.calendar.specs.Days.{date_of};
ghost use Rattle.lists.specs.Lists.{Meaning, may_be_listed};

use calendar::day::Day;

// Lists 1 to 7. Each has the codes of the fields that it covers: 1 clinics and pharmacies (M05, D12), 2 M06, 3 D06, 4 M35 to M40,
// 5 M41 to M43, 6 M50, and 7 the visit numbers in M13 where H01 is B.
pub trait CodeLists {
    ghost meaning: { Self → Meaning };

    // Whether the list has the code on the day.
    fn contains(&self, list: u8, code: &[u8], day: Day) -> bool
        ensures { result ≡ meaning self.now list code.now (date_of day) };

    // Only lists 1 to 7 have codes, and only codes of 1 to 12 bytes.
    ghost bounds: { (s : Self) (list : ℕ) (code : List ℕ) (date : Date)
        → IsTrue (meaning s list code date) → IsTrue (may_be_listed list code) };
}
