// Which rules can be broken where.
ghost use Rattle.std.specs.Prelude.{◌≡◌};
ghost use Rattle.rules.specs.Places.{rules_at, Told, asks, Asked};
ghost use Rattle.rules.specs.Sight.{view_of};

use crate::seen::Seen;
use faults::rules::Rule;
use fields::field::Field;
use lists::code_lists::CodeLists;

// The rules that can be broken where a field is named, or where an ID is none of a field. No other needs to be tried there.
#[tactic(auto, using(crate::proofs::Telling::told))]
pub fn rules_at(field: Option<Field>) -> &'static [Rule]
    ensures value { result.now ≡ rules_at field }
    ensures law { Told }
{
    match field {
        None => &[Rule::Misplaced, Rule::Repeated],
        Some(Field::H00 | Field::H01) => &[
            Rule::Misplaced,
            Rule::Repeated,
            Rule::Missing,
            Rule::Barred,
            Rule::Form,
            Rule::Unknown,
        ],
        Some(
            Field::M05
            | Field::M06
            | Field::M35
            | Field::M36
            | Field::M37
            | Field::M38
            | Field::M39
            | Field::M40
            | Field::M41
            | Field::M42
            | Field::M43
            | Field::M50
            | Field::D06
            | Field::D12,
        ) => &[
            Rule::Misplaced,
            Rule::Repeated,
            Rule::Missing,
            Rule::Barred,
            Rule::Form,
            Rule::Code,
        ],
        Some(Field::M07) => &[
            Rule::Misplaced,
            Rule::Repeated,
            Rule::Missing,
            Rule::Barred,
            Rule::Form,
            Rule::Unknown,
            Rule::Prevention,
        ],
        Some(Field::M08) => &[
            Rule::Misplaced,
            Rule::Repeated,
            Rule::Missing,
            Rule::Barred,
            Rule::Form,
            Rule::Newborn,
        ],
        Some(Field::M11) => &[
            Rule::Misplaced,
            Rule::Repeated,
            Rule::Missing,
            Rule::Barred,
            Rule::Form,
            Rule::Dates,
        ],
        Some(Field::M12) => &[
            Rule::Misplaced,
            Rule::Repeated,
            Rule::Missing,
            Rule::Barred,
            Rule::Form,
            Rule::LateCard,
        ],
        Some(Field::M13) => &[
            Rule::Misplaced,
            Rule::Repeated,
            Rule::Missing,
            Rule::Barred,
            Rule::Form,
            Rule::VisitNumber,
            Rule::Code,
        ],
        Some(Field::M15 | Field::M17 | Field::M52) => &[
            Rule::Misplaced,
            Rule::Repeated,
            Rule::Missing,
            Rule::Barred,
            Rule::Form,
            Rule::Signs,
        ],
        Some(Field::M16) => &[
            Rule::Misplaced,
            Rule::Repeated,
            Rule::Missing,
            Rule::Barred,
            Rule::Form,
            Rule::Signs,
            Rule::Origin,
        ],
        Some(Field::M33) => &[
            Rule::Misplaced,
            Rule::Repeated,
            Rule::Missing,
            Rule::Barred,
            Rule::Form,
            Rule::Refills,
        ],
        Some(Field::D01) => &[
            Rule::Misplaced,
            Rule::Repeated,
            Rule::Missing,
            Rule::Barred,
            Rule::Form,
            Rule::OrderMoment,
        ],
        Some(Field::D02) => &[
            Rule::Misplaced,
            Rule::Repeated,
            Rule::Missing,
            Rule::Barred,
            Rule::Form,
            Rule::OrderKind,
        ],
        Some(Field::D03) => &[
            Rule::Misplaced,
            Rule::Repeated,
            Rule::Missing,
            Rule::Barred,
            Rule::Form,
            Rule::OrderNumber,
        ],
        Some(Field::D11) => &[
            Rule::Misplaced,
            Rule::Repeated,
            Rule::Missing,
            Rule::Barred,
            Rule::Form,
            Rule::Signature,
        ],
        _ => &[
            Rule::Misplaced,
            Rule::Repeated,
            Rule::Missing,
            Rule::Barred,
            Rule::Form,
        ],
    }
}

impl<'a, L: CodeLists> Seen<'a, L> {
    // Whether the absence of the field can break a rule. Where it cannot, none needs to be tried.
    #[tactic(auto, using(crate::proofs::Telling::asked))]
    pub fn asks(&self, field: Field) -> bool
        ensures value { result ≡ asks (view_of L.meaning self.now) field }
        ensures law { Asked }
    {
        matches!(
            field,
            Field::H00
                | Field::H01
                | Field::M07
                | Field::M08
                | Field::M11
                | Field::M13
                | Field::M16
                | Field::D02
                | Field::D03
                | Field::D11
        ) || self.asks_for(field)
    }
}
