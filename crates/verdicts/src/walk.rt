// A walk over the segments of a record.
ghost use Rattle.std.specs.Prelude.{◌≡◌, []};
ghost use Rattle.faults.specs.Reports.{told};
ghost use Rattle.records.specs.Reading.{record_of};
ghost use Rattle.rules.specs.Sight.{view_of};
ghost use Rattle.verdicts.specs.Reading.{Opened};
ghost use Rattle.verdicts.specs.Sights.{setting};
ghost use Rattle.verdicts.specs.Walks.{record_walk};

use crate::parts::{Spot, report_part};
use crate::sights::{pass, turn_to};
use faults::report::Report;
use faults::rules::Rule;
use lists::code_lists::CodeLists;
use records::passing::OpenRecord;
use rules::seen::Seen;

// What the record with the number, of which header and visit are seen, breaks of the rule, or
// where none is named of any: segment by segment.
pub(crate) fn report_record<L: CodeLists>(
    head: &Seen<L>,
    only: Option<Rule>,
    number: usize,
    record: &OpenRecord,
    report: &mut Report,
)
    requires { Opened (view_of L.meaning head.now) head.now.cells.upload.now (setting L.meaning head.now.today head.now.lists.now) record.now }
    ensures { report.new ≡ told report.old (record_walk (setting L.meaning head.now.today head.now.lists.now) number (record_of record.now) only) }
{
    let mut segment = 0;
    let header = Spot {
        record: number,
        segment,
    };
    report_part(head, only, header, &record.header, report);
    segment += 1;
    let visit = Spot {
        record: number,
        segment,
    };
    report_part(head, only, visit, &record.visit, report);
    let mut seen = Seen {
        ordered: head.ordered,
        ..*head
    };
    for order in record.orders() {
        segment += 1;
        let spot = Spot {
            record: number,
            segment,
        };
        turn_to(&mut seen, &order);
        report_part(&seen, only, spot, &order, report);
        pass(&mut seen);
    }
}
