// What one segment of a record breaks: of one rule, or of any.
ghost use Rattle.std.specs.Prelude.{◌≡◌, ◌≤◌, [], None};
ghost use Rattle.std.specs.List.{flat_map};
ghost use Rattle.grammar.specs.Items.{value_place};
ghost use Rattle.fields.specs.Fields.{fields_of};
ghost use Rattle.faults.specs.Along.{along};
ghost use Rattle.faults.specs.Reports.{told};
ghost use Rattle.records.specs.Reading.{part_of, written_of};
ghost use Rattle.rules.specs.Sight.{view_of};
ghost use Rattle.verdicts.specs.Faults.{lacking};
ghost use Rattle.verdicts.specs.Walks.{lacking_any, offence, offences, striking_any, part_walk};

use crate::strikes::{lacks, offends, place_of};
use faults::report::{Fault, Report};
use faults::rules::Rule;
use fields::field::{Field, field_at, fields_of};
use grammar::states::Segment;
use lists::code_lists::CodeLists;
use marks::ids::Ids;
use records::fields::Occurrence;
use records::part::OpenPart;
use rules::places::rules_at;
use rules::seen::Seen;

// Which segment is judged: the number of its record, from 1, and its own in that. 0 is MSH, 1 is MB1, 2 the first MB2.
#[derive(Clone, Copy)]
pub(crate) struct Spot {
    pub(crate) record: usize,
    pub(crate) segment: usize,
}

fn tell_lack<L: CodeLists>(
    seen: &Seen<L>,
    rule: Rule,
    spot: Spot,
    tag: usize,
    field: Field,
    report: &mut Report,
)
    ensures { report.new ≡ told report.old (lacking rule (view_of L.meaning seen.now) spot.record spot.segment tag field) }
{
    if lacks(seen, rule, field) {
        report.tell(Fault {
            record: spot.record,
            segment: spot.segment,
            field: field.id(),
            rule,
            place: tag,
        });
    }
}

// What the absence of the field breaks of any rule.
fn tell_any_lack<L: CodeLists>(
    seen: &Seen<L>,
    spot: Spot,
    tag: usize,
    field: Field,
    report: &mut Report,
)
    ensures { report.new ≡ told report.old (lacking_any None (view_of L.meaning seen.now) spot.record spot.segment tag field) }
{
    for rule in rules_at(Some(field)) {
        tell_lack(seen, *rule, spot, tag, field, report);
    }
}

#[tactic(auto, using(crate::proofs::Lacking::written, crate::proofs::Lacking::not_asked))]
fn tell_lacks<L: CodeLists>(
    seen: &Seen<L>,
    only: Option<Rule>,
    spot: Spot,
    tag: usize,
    field: Field,
    report: &mut Report,
)
    ensures { report.new ≡ told report.old (lacking_any only (view_of L.meaning seen.now) spot.record spot.segment tag field) }
{
    match only {
        Some(rule) => tell_lack(seen, rule, spot, tag, field, report),
        // nothing is broken there
        None if seen.has(field) || !seen.asks(field) => {}
        None => tell_any_lack(seen, spot, tag, field, report),
    }
}

// The absent fields, in their order, at the tag of the segment.
fn report_lacks<L: CodeLists>(
    seen: &Seen<L>,
    only: Option<Rule>,
    spot: Spot,
    part: &OpenPart,
    report: &mut Report,
)
    ensures { report.new ≡ told report.old
        (flat_map (lacking_any only (view_of L.meaning seen.now) spot.record spot.segment (part_of part.now).tag) (fields_of (part_of part.now).segment)) }
{
    for field in fields_of(part.segment) {
        tell_lacks(seen, only, spot, part.tag, *field, report);
    }
}

fn tell_strike<L: CodeLists>(
    seen: &Seen<L>,
    rule: Rule,
    spot: Spot,
    segment: Segment,
    again: bool,
    field: Occurrence,
    report: &mut Report,
)
    requires { value_place field.place ≤ usize.MAX }
    ensures { report.new ≡ told report.old (offence (view_of L.meaning seen.now) segment spot.record spot.segment again (written_of field.entry) rule) }
{
    if offends(seen, rule, segment, again, field) {
        report.tell(Fault {
            record: spot.record,
            segment: spot.segment,
            field: field.id,
            rule,
            place: place_of(rule, field),
        });
    }
}

fn tell_strikes<L: CodeLists>(
    seen: &Seen<L>,
    only: Option<Rule>,
    spot: Spot,
    segment: Segment,
    again: bool,
    field: Occurrence,
    report: &mut Report,
)
    requires { value_place field.place ≤ usize.MAX }
    ensures { report.new ≡ told report.old
        (offences only (view_of L.meaning seen.now) segment spot.record spot.segment again (written_of field.entry)) }
{
    match only {
        Some(rule) => tell_strike(seen, rule, spot, segment, again, field, report),
        None => {
            let named = field_at(segment, field.id);
            for rule in rules_at(named) {
                tell_strike(seen, *rule, spot, segment, again, field, report);
            }
        }
    }
}

// The fields that are written, in the order of the upload.
fn report_strikes<L: CodeLists>(
    seen: &Seen<L>,
    only: Option<Rule>,
    spot: Spot,
    part: &OpenPart,
    report: &mut Report,
)
    ensures { report.new ≡ told report.old
        (along (striking_any only (view_of L.meaning seen.now) (part_of part.now).segment spot.record spot.segment) [] (part_of part.now).fields) }
{
    let mut ids = Ids::new();
    for field in part.fields() {
        if !field.value.is_empty() {
            let again = ids.contains(field.id);
            tell_strikes(seen, only, spot, part.segment, again, field, report);
            ids.insert(field.id);
        }
    }
}

// What the segment breaks of the rule; or where none is named of any, of all of them at one field before the next.
pub(crate) fn report_part<L: CodeLists>(
    seen: &Seen<L>,
    only: Option<Rule>,
    spot: Spot,
    part: &OpenPart,
    report: &mut Report,
)
    ensures { report.new ≡ told report.old (part_walk only (view_of L.meaning seen.now) spot.record spot.segment (part_of part.now)) }
{
    report_lacks(seen, only, spot, part, report);
    report_strikes(seen, only, spot, part, report);
}
