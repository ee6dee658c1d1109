// Judging a record: by itself, and then against what stands in the register.
ghost use Rattle.std.specs.Prelude.{◌≡◌};
ghost use Rattle.faults.specs.Reports.{begun, told, verdict_of};
ghost use Rattle.records.specs.Reading.{record_of};
ghost use Rattle.verdicts.specs.Faults.{faults_of};
ghost use Rattle.verdicts.specs.Sights.{setting};
ghost use Rattle.calendar.specs.Days.{date_of};
ghost use Rattle.receiving.specs.Contents.{filing_of};
ghost use Rattle.receiving.specs.Judging.{SettledAny, Judges, standing_faults, faults_told};

use calendar::day::Day;
use cells::cells::Cells;
use faults::report::{Fault, Report};
use faults::rules::Rule;
use fields::field::Field;
use filings::filing::Filing;
use lists::code_lists::CodeLists;
use records::passing::OpenRecord;
use register::register::Register;
use settling::settle::settle;
use verdicts::judge::judge_record;

// What the records of an upload are judged by, beside the register.
#[derive(Drop)]
pub(crate) struct Terms<'a, L> {
    pub(crate) sender: &'a [u8],
    pub(crate) today: Day,
    pub(crate) lists: &'a L,
}

// Tells what the record breaks by itself, and gives the lowest rule of that.
#[tactic(auto, using(crate::proofs::Judged::verdict_told))]
fn judge_alone<L: CodeLists>(
    terms: &Terms<L>,
    number: usize,
    record: &OpenRecord,
    report: &mut Report,
) -> Option<Rule>
    ensures verdict { result ≡ verdict_of (faults_of (setting L.meaning terms.now.today terms.now.lists.now) number (record_of record.now)) }
    ensures told { report.new ≡ told (begun report.old) (faults_of (setting L.meaning terms.now.today terms.now.lists.now) number (record_of record.now)) }
{
    judge_record(terms.today, terms.lists, number, record, report);
    report.verdict()
}

// Settles what is filed, if anything is.
fn settle_any<R: Register>(register: &mut R, today: Day, filing: Option<Filing>) -> Option<Rule>
    ensures { SettledAny (R.contents register.old) (date_of today) filing result (R.contents register.new) }
{
    match filing {
        Some(filing) => settle(register, today, &filing),
        None => None,
    }
}

// Settles what the record files, and tells the rule that stands against it, at M15.
fn judge_standing<R: Register, L>(
    register: &mut R,
    terms: &Terms<L>,
    number: usize,
    record: &OpenRecord,
    report: &mut Report,
) -> Option<Rule>
    ensures settled { SettledAny (R.contents register.old) (date_of terms.now.today) (filing_of terms.now.sender.now (record_of record.now)) result (R.contents register.new) }
    ensures told { report.new ≡ told report.old (standing_faults number (record_of record.now) result) }
{
    let cells = Cells::of(record);
    let filing = Filing::read(terms.sender, &cells);
    let verdict = settle_any(register, terms.today, filing);
    if let Some(rule) = verdict {
        report.tell(Fault {
            record: number,
            segment: 1,
            field: Field::M15.id(),
            rule,
            place: cells.cell(Field::M15).place,
        });
    }
    verdict
}

// Tells the faults of the record with the number, from 1, and gives its verdict. If it has none, what it files is done in the register.
pub(crate) fn judge_against<R: Register, L: CodeLists>(
    register: &mut R,
    terms: &Terms<L>,
    number: usize,
    record: &OpenRecord,
    report: &mut Report,
) -> Option<Rule>
    ensures judged { Judges (setting L.meaning terms.now.today terms.now.lists.now) terms.now.sender.now number (record_of record.now) (R.contents register.old) result (R.contents register.new) }
    ensures told { report.new ≡ told (begun report.old) (faults_told (setting L.meaning terms.now.today terms.now.lists.now) number (record_of record.now) result) }
{
    match judge_alone(terms, number, record, report) {
        Some(rule) => Some(rule),
        None => judge_standing(register, terms, number, record, report),
    }
}
