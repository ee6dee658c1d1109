// What is seen of a record while one of its segments is judged.
ghost use Rattle.std.specs.Prelude.{◌≡◌};
ghost use Rattle.rules.specs.Views.{is_kept};

use calendar::day::Day;
use calendar::moment::Moment;
use cells::cells::Cells;
use fields::action::Action;
use fields::category::Category;
use fields::field::Field;
use lists::code_lists::CodeLists;
use marks::numbers::OrderNumbers;

#[derive(Drop)]
pub struct Seen<'a, L> {
    // the receipt day
    pub today: Day,
    pub lists: &'a L,
    // the fields of the header, of the visit and of the order that is judged
    pub cells: Cells<'a>,
    // the numbers of the orders before that
    pub numbers: OrderNumbers,
    // whether the record has an order
    pub ordered: bool,
}

impl<'a, L: CodeLists> Seen<'a, L> {
    ghost use Rattle.std.specs.Option.{option_map};
    ghost use Rattle.calendar.specs.Days.{date_of};
    ghost use Rattle.rules.specs.Views.{has, says, action, category, day, visit_day, is_visit, is_normal, withdraws, regards};
    ghost use Rattle.rules.specs.Sight.{view_of};

    pub(crate) fn value(&self, field: Field) -> &'a [u8]
        ensures { result.now ≡ (view_of L.meaning self.entry.now).value field }
    {
        self.cells.value(field)
    }

    pub fn has(&self, field: Field) -> bool
        ensures { result ≡ has (view_of L.meaning self.now) field }
    {
        !self.value(field).is_empty()
    }

    pub(crate) fn says(&self, field: Field, text: &[u8]) -> bool
        ensures { result ≡ says (view_of L.meaning self.now) field text.now }
    {
        self.value(field) == text
    }

    pub(crate) fn action(&self) -> Option<Action>
        ensures { result ≡ action (view_of L.meaning self.now) }
    {
        Action::read(self.value(Field::H01))
    }

    pub(crate) fn category(&self) -> Option<Category>
        ensures { result ≡ category (view_of L.meaning self.now) }
    {
        Category::read(self.value(Field::M07))
    }

    pub(crate) fn day(&self, field: Field) -> Option<Day>
        ensures { option_map date_of result ≡ day (view_of L.meaning self.now) field }
    {
        Day::read(self.value(field))
    }

    pub(crate) fn visit_day(&self) -> Option<Day>
        ensures { option_map date_of result ≡ visit_day (view_of L.meaning self.now) }
    {
        Some(Moment::read(self.value(Field::M11))?.day)
    }

    // Whether it is the record of a visit, and not of a cancellation or a deletion.
    pub(crate) fn is_visit(&self) -> bool
        ensures { result ≡ is_visit (view_of L.meaning self.now) }
    {
        matches!(self.action(), Some(Action::Normal | Action::Exceptional))
    }

    pub(crate) fn is_normal(&self) -> bool
        ensures { result ≡ is_normal (view_of L.meaning self.now) }
    {
        matches!(self.action(), Some(Action::Normal))
    }

    pub fn withdraws(&self) -> bool
        ensures { result ≡ withdraws (view_of L.meaning self.now) }
    {
        matches!(self.action(), Some(Action::Cancel | Action::Delete))
    }

    // Whether the rules look at the field at all: a record that withdraws another has few that count.
    pub(crate) fn regards(&self, field: Field) -> bool
        ensures { result ≡ regards (view_of L.meaning self.now) field }
    {
        !self.withdraws() || is_kept(field)
    }
}

pub fn is_kept(field: Field) -> bool
    ensures { result ≡ is_kept field }
{
    matches!(
        field,
        Field::H00 | Field::H01 | Field::M03 | Field::M04 | Field::M05 | Field::M15
    )
}
