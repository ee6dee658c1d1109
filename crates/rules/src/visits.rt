// Rules 17 to 21 and 27 to 29: what the fields of a visit say together.
ghost use Rattle.std.specs.Prelude.{◌≡◌};
ghost use Rattle.rules.specs.Visits.{dates_fit, is_newborn, newborn_fits, card_fits, number_fits, signs_fit, source_is_told, prevention_fits, refills_fit};
ghost use Rattle.rules.specs.Sight.{view_of};

use crate::seen::Seen;
use fields::field::Field;
use lists::code_lists::CodeLists;
use values::numbers::{number, rank};
use values::visits::{
    are_refills, has_signs, is_child_of, is_dispensing, is_number_in, is_prevention, precedes,
    signs_of,
};

impl<'a, L: CodeLists> Seen<'a, L> {
    pub(crate) fn dates_fit(&self, field: Field) -> bool
        ensures { result ≡ dates_fit (view_of L.meaning self.now) field }
    {
        match field {
            Field::M11 => {
                !precedes(self.visit_day(), self.day(Field::M04))
                    && !precedes(Some(self.today), self.visit_day())
            }
            _ => true,
        }
    }

    fn is_newborn(&self) -> bool
        ensures { result ≡ is_newborn (view_of L.meaning self.now) }
    {
        is_child_of(number(self.value(Field::M09)), rank(self.value(Field::M10)))
            && precedes(self.day(Field::M04), self.day(Field::M08))
            && !precedes(self.visit_day(), self.day(Field::M08))
    }

    pub(crate) fn newborn_fits(&self, field: Field) -> bool
        ensures { result ≡ newborn_fits (view_of L.meaning self.now) field }
    {
        match field {
            Field::M08 => {
                !(self.has(Field::M08) || self.has(Field::M09) || self.has(Field::M10))
                    || self.has(Field::M08)
                        && self.has(Field::M09)
                        && self.has(Field::M10)
                        && self.is_newborn()
            }
            _ => true,
        }
    }

    pub(crate) fn card_fits(&self, field: Field) -> bool
        ensures { result ≡ card_fits (view_of L.meaning self.now) field }
    {
        match field {
            Field::M12 => {
                !self.has(Field::M12)
                    || self.says(Field::M12, b"1") && !self.has(Field::M52)
                    || self.says(Field::M12, b"2") && self.has(Field::M49) && self.has(Field::M52)
            }
            _ => true,
        }
    }

    pub(crate) fn number_fits(&self, field: Field) -> bool
        ensures { result ≡ number_fits (view_of L.meaning self.now) field }
    {
        match field {
            Field::M13 => {
                !self.is_normal() || is_number_in(self.category(), self.value(Field::M13))
            }
            _ => true,
        }
    }

    pub(crate) fn signs_fit(&self, field: Field) -> bool
        ensures { result ≡ signs_fit (view_of L.meaning self.now) field }
    {
        match signs_of(field) {
            Some(n) => !self.has(field) || has_signs(n, self.value(field)),
            None => true,
        }
    }

    pub(crate) fn source_is_told(&self, field: Field) -> bool
        ensures { result ≡ source_is_told (view_of L.meaning self.now) field }
    {
        match field {
            Field::M16 => {
                !is_dispensing(self.category()) || self.has(Field::M16) && self.has(Field::M17)
            }
            _ => true,
        }
    }

    pub(crate) fn prevention_fits(&self, field: Field) -> bool
        ensures { result ≡ prevention_fits (view_of L.meaning self.now) field }
    {
        match field {
            Field::M07 => !is_prevention(self.category()) || self.is_normal(),
            _ => true,
        }
    }

    pub(crate) fn refills_fit(&self, field: Field) -> bool
        ensures { result ≡ refills_fit (view_of L.meaning self.now) field }
    {
        match field {
            Field::M33 => {
                !self.has(Field::M33)
                    || are_refills(number(self.value(Field::M26)), self.value(Field::M33))
            }
            _ => true,
        }
    }
}
