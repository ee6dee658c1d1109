// Which rules are broken at a field.
use crate::seen::Seen;
use faults::rules::Rule;
use fields::field::Field;
use lists::code_lists::CodeLists;

impl<'a, L: CodeLists> Seen<'a, L> {
    ghost use Rattle.std.specs.Prelude.{◌≡◌};
    ghost use Rattle.rules.specs.Rules.{broken};
    ghost use Rattle.rules.specs.Sight.{view_of};

    // Whether the rule is broken at the field.
    pub fn breaks(&self, rule: Rule, field: Field) -> bool
        ensures { result ≡ broken rule (view_of L.meaning self.now) field }
    {
        match rule {
            Rule::Misplaced | Rule::Repeated => false,
            Rule::Unknown => self.is_unknown(field),
            Rule::Missing => self.is_missing(field),
            Rule::Barred => self.is_barred(field),
            Rule::Form => self.is_misformed(field),
            Rule::Dates => !self.dates_fit(field) && self.is_visit(),
            Rule::Newborn => !self.newborn_fits(field) && self.is_visit(),
            Rule::LateCard => !self.card_fits(field) && self.is_visit(),
            Rule::VisitNumber => !self.number_fits(field) && self.is_visit(),
            Rule::Signs => {
                !self.signs_fit(field)
                    && (self.is_visit() || self.withdraws())
                    && self.regards(field)
            }
            Rule::OrderMoment => !self.moment_agrees(field) && self.is_visit(),
            Rule::OrderNumber => !self.number_is_new(field) && self.is_visit(),
            Rule::OrderKind => !self.kind_fits(field) && self.is_visit(),
            Rule::Signature => !self.is_signed(field) && self.is_visit(),
            Rule::Code => !self.is_listed(field) && self.is_visit(),
            Rule::Origin => !self.source_is_told(field) && self.is_visit(),
            Rule::Prevention => !self.prevention_fits(field) && self.is_visit(),
            Rule::Refills => !self.refills_fit(field) && self.is_visit(),
            // these speak of the register
            Rule::Unmatched
            | Rule::Late
            | Rule::Dispensed
            | Rule::Prescription
            | Rule::Uncancellable
            | Rule::NoRoom => false,
        }
    }
}
