// Rules 22 to 25: what an order says.
ghost use Rattle.std.specs.Prelude.{◌≡◌};
ghost use Rattle.rules.specs.Orders.{moment_agrees, number_is_new, is_medicine, tells_use, is_prescribed, kind_fits, needs_signature, is_signed};
ghost use Rattle.rules.specs.Sight.{view_of};

use crate::seen::Seen;
use fields::field::Field;
use lists::code_lists::CodeLists;
use values::numbers::order_number;
use values::orders::{is_course, is_order_kind, is_prescription_kind};

impl<'a, L: CodeLists> Seen<'a, L> {
    pub(crate) fn moment_agrees(&self, field: Field) -> bool
        ensures { result ≡ moment_agrees (view_of L.meaning self.now) field }
    {
        match field {
            Field::D01 => {
                !self.has(Field::D01) || self.value(Field::D01) == self.value(Field::M11)
            }
            _ => true,
        }
    }

    pub(crate) fn number_is_new(&self, field: Field) -> bool
        ensures { result ≡ number_is_new (view_of L.meaning self.now) field }
    {
        match field {
            Field::D03 => match order_number(self.value(Field::D03)) {
                Some(number) => !self.numbers.contains(usize::from(number)),
                None => true,
            },
            _ => true,
        }
    }

    fn is_medicine(&self) -> bool
        ensures { result ≡ is_medicine (view_of L.meaning self.now) }
    {
        self.says(Field::D02, b"1") || self.says(Field::D02, b"M")
    }

    // Whether it tells how and in which way a medicine is taken, where its code does not excuse that.
    fn tells_use(&self) -> bool
        ensures { result ≡ tells_use (view_of L.meaning self.now) }
    {
        (self.has(Field::D08) || self.is_excused(Field::D08))
            && (self.has(Field::D14) || self.is_excused(Field::D14))
    }

    // Whether a medicine has its kind A to F, for 1 to 92 days, its amount and its use.
    fn is_prescribed(&self) -> bool
        ensures { result ≡ is_prescribed (view_of L.meaning self.now) }
    {
        is_prescription_kind(self.value(Field::D04))
            && is_course(self.value(Field::D09))
            && self.has(Field::D10)
            && self.tells_use()
    }

    pub(crate) fn kind_fits(&self, field: Field) -> bool
        ensures { result ≡ kind_fits (view_of L.meaning self.now) field }
    {
        match field {
            Field::D02 => {
                !self.has(Field::D02)
                    || is_order_kind(self.value(Field::D02))
                        && (!self.is_medicine() || self.is_prescribed())
            }
            _ => true,
        }
    }

    fn needs_signature(&self) -> bool
        ensures { result ≡ needs_signature (view_of L.meaning self.now) }
    {
        self.is_normal()
            && (self.says(Field::D02, b"1")
                || self.says(Field::D02, b"2")
                || self.says(Field::D02, b"3"))
    }

    pub(crate) fn is_signed(&self, field: Field) -> bool
        ensures { result ≡ is_signed (view_of L.meaning self.now) field }
    {
        match field {
            Field::D11 => !self.needs_signature() || self.has(Field::D11),
            _ => true,
        }
    }
}
