// Judging an upload that is taken.
ghost use Rattle.judging.specs.Judging.{TellsOf};
ghost use Rattle.verdicts.specs.Sights.{setting};

use faults::report::{Fault, Report};
use faults::rules::Rule;
use grammar::states::FieldId;
use lists::code_lists::CodeLists;
use records::begin::records;
use uploads::upload::Upload;
use verdicts::judge::judge_record;

// How many records an upload holds, how many of them break no rule, and how many faults there are in all.
#[derive(Clone, Copy, PartialEq, Eq, Debug)]
pub struct Counts {
    pub records: usize,
    pub accepted: usize,
    pub faults: usize,
}

// What a row holds before a fault takes it.
pub const BLANK: Fault = Fault {
    record: 0,
    segment: 0,
    field: FieldId {
        letter: b'A',
        tens: b'0',
        ones: b'0',
    },
    rule: Rule::Misplaced,
    place: 0,
};

// Judges the records of an upload, one after the other. The first faults go into the rows, and rows that none of them needs keep
// what they had. Nothing is allocated.
pub fn judge_upload<L: CodeLists>(upload: Upload, lists: &L, rows: &mut [Fault]) -> Counts
    ensures { TellsOf (setting L.meaning upload.entry.day lists.now) upload.entry.file.bytes.now rows.old result rows.new }
{
    let mut report = Report::new(rows);
    let mut judged = 0;
    let mut accepted = 0;
    for record in records(upload.file) {
        judged += 1;
        judge_record(upload.day, lists, judged, &record, &mut report);
        if report.verdict().is_none() {
            accepted += 1;
        }
    }
    Counts {
        records: judged,
        accepted,
        faults: report.count(),
    }
}
