// Whether the writing of a field breaks a rule, or its absence does.
ghost use Rattle.std.specs.Prelude.{◌≡◌, ◌≤◌};
ghost use Rattle.grammar.specs.Items.{value_place};
ghost use Rattle.records.specs.Reading.{written_of};
ghost use Rattle.rules.specs.Sight.{view_of};
ghost use Rattle.verdicts.specs.Faults.{is_kept_id, counts, offends, lacks, place_of};

use faults::rules::Rule;
use fields::field::{Field, field_at};
use grammar::states::{FieldId, Segment};
use lists::code_lists::CodeLists;
use records::fields::Occurrence;
use rules::seen::{Seen, is_kept};

fn is_kept_id(id: FieldId) -> bool
    ensures { result ≡ is_kept_id id }
{
    match field_at(Segment::Header, id).or(field_at(Segment::Visit, id)) {
        Some(field) => is_kept(field),
        None => false,
    }
}

// Whether the record looks at fields of that ID at all.
fn counts<L: CodeLists>(seen: &Seen<L>, id: FieldId) -> bool
    ensures { result ≡ counts (view_of L.meaning seen.now) id }
{
    !seen.withdraws() || is_kept_id(id)
}

// Whether a rule is broken where a field with a value stands in the segment. `again` tells whether its ID was written there before.
pub(crate) fn offends<L: CodeLists>(
    seen: &Seen<L>,
    rule: Rule,
    segment: Segment,
    again: bool,
    field: Occurrence,
) -> bool
    ensures { result ≡ offends rule (view_of L.meaning seen.now) segment again (written_of field.entry) }
{
    match rule {
        Rule::Misplaced => counts(seen, field.id) && field_at(segment, field.id).is_none(),
        Rule::Repeated => counts(seen, field.id) && again,
        _ => match field_at(segment, field.id) {
            Some(named) => !again && seen.breaks(rule, named),
            None => false,
        },
    }
}

// Whether a rule is broken because the field is absent.
pub(crate) fn lacks<L: CodeLists>(seen: &Seen<L>, rule: Rule, field: Field) -> bool
    ensures { result ≡ lacks rule (view_of L.meaning seen.now) field }
{
    !seen.has(field) && seen.breaks(rule, field)
}

// Where a fault of the written field stands: at its tag for a field out of place or once more, else at its value.
pub(crate) fn place_of(rule: Rule, field: Occurrence) -> usize
    requires { value_place field.place ≤ usize.MAX }
    ensures { result ≡ place_of rule (written_of field.entry) }
{
    match rule {
        Rule::Misplaced | Rule::Repeated => field.place,
        _ => field.place + 5,
    }
}
