// The rules for records, and the three tiers in which a record is tried by itself.
ghost use Rattle.std.specs.Prelude.{◌≡◌};
ghost use Rattle.faults.specs.Rules.{number_of, rules_of, tiers};

#[derive(Clone, Copy, Debug)]
pub enum Rule {
    Misplaced,
    Repeated,
    Unknown,
    Missing,
    Barred,
    Form,
    Dates,
    Newborn,
    LateCard,
    VisitNumber,
    Signs,
    OrderMoment,
    OrderNumber,
    OrderKind,
    Signature,
    Code,
    Origin,
    Prevention,
    Refills,
    // of no tier: these are tried against what stands in a register
    Unmatched,
    Late,
    Dispensed,
    Prescription,
    Uncancellable,
    NoRoom,
}

impl Rule {
    pub fn number(self) -> u8
        ensures { result ≡ number_of self }
    {
        match self {
            Rule::Misplaced => 11,
            Rule::Repeated => 12,
            Rule::Unknown => 13,
            Rule::Missing => 14,
            Rule::Barred => 15,
            Rule::Form => 16,
            Rule::Dates => 17,
            Rule::Newborn => 18,
            Rule::LateCard => 19,
            Rule::VisitNumber => 20,
            Rule::Signs => 21,
            Rule::OrderMoment => 22,
            Rule::OrderNumber => 23,
            Rule::OrderKind => 24,
            Rule::Signature => 25,
            Rule::Code => 26,
            Rule::Origin => 27,
            Rule::Prevention => 28,
            Rule::Refills => 29,
            Rule::Unmatched => 30,
            Rule::Late => 31,
            Rule::Dispensed => 32,
            Rule::Prescription => 33,
            Rule::Uncancellable => 34,
            Rule::NoRoom => 35,
        }
    }
}

// The tiers in which a record is tried by itself. Each is tried only of a record in which those before it found no fault.
#[derive(Clone, Copy, PartialEq, Eq, Debug)]
pub enum Tier {
    First,
    Second,
    Third,
}

impl Tier {
    // All of them, in the order in which they are tried.
    #[tactic(auto, unfolding(crate::specs::Rules::tiers))]
    pub fn all() -> &'static [Tier]
        ensures { result.now ≡ tiers }
    {
        &[Tier::First, Tier::Second, Tier::Third]
    }

    // The rules of the tier, in rising order of their numbers.
    pub fn rules(self) -> &'static [Rule]
        ensures { result.now ≡ rules_of self }
    {
        match self {
            Tier::First => &[Rule::Misplaced, Rule::Repeated, Rule::Unknown],
            Tier::Second => &[Rule::Missing, Rule::Barred, Rule::Form],
            Tier::Third => {
                &[
                    Rule::Dates,
                    Rule::Newborn,
                    Rule::LateCard,
                    Rule::VisitNumber,
                    Rule::Signs,
                    Rule::OrderMoment,
                    Rule::OrderNumber,
                    Rule::OrderKind,
                    Rule::Signature,
                    Rule::Code,
                    Rule::Origin,
                    Rule::Prevention,
                    Rule::Refills,
                ]
            }
        }
    }
}
