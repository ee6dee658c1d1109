// The faults of a record, tier by tier.
ghost use Rattle.std.specs.Prelude.{◌≡◌, None, [], IsTrue};
ghost use Rattle.faults.specs.Reports.{begun, told};
ghost use Rattle.records.specs.Reading.{record_of};
ghost use Rattle.rules.specs.Sight.{view_of};
ghost use Rattle.verdicts.specs.Faults.{faults_of, tier_faults};
ghost use Rattle.verdicts.specs.Laws.{FaultLaw};
ghost use Rattle.verdicts.specs.Reading.{Opened};
ghost use Rattle.verdicts.specs.Sights.{setting};

use crate::sights::open;
use crate::walk::report_record;
use calendar::day::Day;
use faults::report::{Fault, Report};
use faults::rules::{Rule, Tier};
use lists::code_lists::CodeLists;
use records::passing::OpenRecord;
use rules::seen::Seen;

// What the record breaks of a tier, rule by rule.
fn report_tier<L: CodeLists>(
    head: &Seen<L>,
    tier: Tier,
    number: usize,
    record: &OpenRecord,
    report: &mut Report,
)
    requires { Opened (view_of L.meaning head.now) head.now.cells.upload.now (setting L.meaning head.now.today head.now.lists.now) record.now }
    ensures { report.new ≡ told report.old (tier_faults (setting L.meaning head.now.today head.now.lists.now) number (record_of record.now) tier) }
{
    for rule in tier.rules() {
        report_record(head, Some(*rule), number, record, report);
    }
}

// Whether the record breaks no rule at all. Most do not, and for those one walk is enough.
fn is_clean<L: CodeLists>(head: &Seen<L>, number: usize, record: &OpenRecord) -> bool
    requires { Opened (view_of L.meaning head.now) head.now.cells.upload.now (setting L.meaning head.now.today head.now.lists.now) record.now }
    ensures { IsTrue result → faults_of (setting L.meaning head.now.today head.now.lists.now) number (record_of record.now) ≡ [] }
{
    let mut none: [Fault; 0] = [];
    let mut report = Report::new(&mut none);
    report_record(head, None, number, record, &mut report);
    report.verdict().is_none()
}

// What it breaks of the first tier that it breaks.
fn report_first<L: CodeLists>(
    head: &Seen<L>,
    number: usize,
    record: &OpenRecord,
    report: &mut Report,
)
    requires opened { Opened (view_of L.meaning head.now) head.now.cells.upload.now (setting L.meaning head.now.today head.now.lists.now) record.now }
    requires begun { report.old.verdict ≡ None }
    ensures { report.new ≡ told report.old (faults_of (setting L.meaning head.now.today head.now.lists.now) number (record_of record.now)) }
{
    for tier in Tier::all() {
        report_tier(head, *tier, number, record, report);
        if report.verdict().is_some() {
            return;
        }
    }
}

// Tells the faults of the record with the number, from 1: those of the first tier that it breaks. Its verdict, the lowest rule
// that it breaks, is then that of the report.
pub fn judge_record<L: CodeLists>(
    today: Day,
    lists: &L,
    number: usize,
    record: &OpenRecord,
    report: &mut Report,
)
    ensures value { report.new ≡ told (begun report.old) (faults_of (setting L.meaning today lists.now) number (record_of record.now)) }
    ensures law { FaultLaw (setting L.meaning today lists.now) number (record_of record.now) }
{
    report.begin();
    let head = open(today, lists, record);
    if !is_clean(&head, number, record) {
        report_first(&head, number, record, report);
    }
}
