// A fault, and the report that keeps what is told: in rows that its caller lends.
ghost use Rattle.std.specs.Prelude.{◌≡◌, [], ◌∷◌};
ghost use Rattle.faults.specs.Reports.{begun, blank, told};

use crate::rules::Rule;
use grammar::states::FieldId;

#[derive(Clone, Copy, Debug)]
pub struct Fault {
    // of the records of an upload, from 1
    pub record: usize,
    // 0 is MSH, 1 is MB1, 2 the first MB2
    pub segment: usize,
    pub field: FieldId,
    pub rule: Rule,
    // in the upload
    pub place: usize,
}

#[derive(Drop)]
pub struct Report<'a> {
    rows: &'a mut [Fault],
    count: usize,
    verdict: Option<Rule>,
}

impl<'a> Report<'a> {
    // Nothing is told yet.
    pub fn new(rows: &'a mut [Fault]) -> Report<'a>
        ensures { result ≡ blank rows.entry }
    {
        Report {
            rows,
            count: 0,
            verdict: None,
        }
    }

    // The next record begins, and has no verdict yet. What was told stays.
    pub fn begin(&mut self)
        ensures { self.new ≡ begun self.old }
    {
        self.verdict = None;
    }

    // A fault that finds no row is counted only.
    pub fn tell(&mut self, fault: Fault)
        ensures { self.new ≡ told self.old (fault ∷ []) }
    {
        if self.count < self.rows.len() {
            self.rows[self.count] = fault;
        }
        self.count = self.count.saturating_add(1);
        self.verdict = self.verdict.or(Some(fault.rule));
    }

    // How many faults were told, of all records.
    pub fn count(&self) -> usize
        ensures { result ≡ self.now.count }
    {
        self.count
    }

    // The rule of the first fault that was told of this record.
    pub fn verdict(&self) -> Option<Rule>
        ensures { result ≡ self.now.verdict }
    {
        self.verdict
    }
}
