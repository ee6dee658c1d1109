// Rules 13 to 16: what a record must hold, and in what form.
ghost use Rattle.std.specs.Prelude.{◌≡◌};
ghost use Rattle.rules.specs.Needs.{need, is_unknown, is_missing, is_barred, is_misformed, is_excused, need_for, is_required};
ghost use Rattle.std.specs.List.{list_any};
ghost use Rattle.fields.specs.Fields.{fields_of};
ghost use Rattle.rules.specs.Sight.{view_of};

use crate::seen::{Seen, is_kept};
use fields::action::Action;
use fields::category::Category;
use fields::excused::is_excused_code;
use fields::field::{Field, fields_of};
use fields::form::form_of;
use fields::need::{Need, printed_need};
use grammar::states::Segment;
use lists::code_lists::CodeLists;

// What a record of the action and the category must do with the field.
fn need_for(action: Option<Action>, category: Option<Category>, field: Field) -> Need
    ensures { result ≡ need_for action category field }
{
    match (action, category) {
        (Some(Action::Normal), Some(category)) => printed_need(field, category, false),
        (Some(Action::Exceptional), Some(category)) => printed_need(field, category, true),
        (Some(Action::Cancel | Action::Delete), _) if is_kept(field) => Need::Required,
        _ => Need::Free,
    }
}

impl<'a, L: CodeLists> Seen<'a, L> {
    pub(crate) fn need(&self, field: Field) -> Need
        ensures { result ≡ need (view_of L.meaning self.now) field }
    {
        need_for(self.action(), self.category(), field)
    }

    pub(crate) fn asks_for(&self, field: Field) -> bool
        ensures { result ≡ is_required (need (view_of L.meaning self.now) field) }
    {
        matches!(self.need(field), Need::Required)
    }

    pub(crate) fn is_unknown(&self, field: Field) -> bool
        ensures { result ≡ is_unknown (view_of L.meaning self.now) field }
    {
        match field {
            Field::H00 => !self.says(Field::H00, b"1"),
            Field::H01 => self.action().is_none(),
            Field::M07 => self.is_visit() && self.category().is_none(),
            _ => false,
        }
    }

    pub(crate) fn is_excused(&self, field: Field) -> bool
        ensures { result ≡ is_excused (view_of L.meaning self.now) field }
    {
        matches!(field, Field::D08 | Field::D14) && is_excused_code(self.value(Field::D06))
    }

    pub(crate) fn is_missing(&self, field: Field) -> bool
        ensures { result ≡ is_missing (view_of L.meaning self.now) field }
    {
        match (field, field.segment()) {
            (Field::D02, _) if !self.ordered => self.asks_for_orders(),
            (_, Segment::Order) if !self.ordered => false,
            _ => !self.has(field) && self.asks_for(field) && !self.is_excused(field),
        }
    }

    fn asks_for_orders(&self) -> bool
        ensures { result ≡ list_any (λ f. is_required (need (view_of L.meaning self.now) f)) (fields_of Segment.Order) }
    {
        fields_of(Segment::Order)
            .iter()
            .any(|field| self.asks_for(*field))
    }

    pub(crate) fn is_barred(&self, field: Field) -> bool
        ensures { result ≡ is_barred (view_of L.meaning self.now) field }
    {
        self.has(field) && matches!(self.need(field), Need::Barred)
    }

    pub(crate) fn is_misformed(&self, field: Field) -> bool
        ensures { result ≡ is_misformed (view_of L.meaning self.now) field }
    {
        self.has(field) && self.regards(field) && !form_of(field).fits(self.value(field))
    }
}
