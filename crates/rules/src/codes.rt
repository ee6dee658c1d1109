// Rule 26: codes stand in their lists on the day of the visit.
ghost use Rattle.std.specs.Prelude.{◌≡◌};
ghost use Rattle.rules.specs.Codes.{code_stands_in, is_listed};
ghost use Rattle.rules.specs.Sight.{view_of};

use crate::seen::Seen;
use fields::field::Field;
use lists::code_lists::CodeLists;
use values::codes::{is_excused_bed, list_of};

impl<'a, L: CodeLists> Seen<'a, L> {
    fn code_stands_in(&self, field: Field, list: u8) -> bool
        ensures { result ≡ code_stands_in (view_of L.meaning self.now) field list }
    {
        let code = self.value(field);
        if code.is_empty() || is_excused_bed(field, code) {
            return true;
        }
        let Some(day) = self.visit_day() else {
            return true;
        };
        self.lists.contains(list, code, day)
    }

    pub(crate) fn is_listed(&self, field: Field) -> bool
        ensures { result ≡ is_listed (view_of L.meaning self.now) field }
    {
        match list_of(self.action(), field) {
            Some(list) => self.code_stands_in(field, list),
            None => true,
        }
    }
}
