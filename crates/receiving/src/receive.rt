// Receiving an upload.
ghost use Rattle.std.specs.Prelude.{◌≡◌, slice_set, length, IfOk};
ghost use Rattle.calendar.specs.Days.{date_of};
ghost use Rattle.verdicts.specs.Sights.{setting};
ghost use Rattle.receiving.specs.Contents.{records_in, Read};
ghost use Rattle.receiving.specs.Events.{accepted_in};
ghost use Rattle.receiving.specs.Receiving.{AllJudged, Received, Exact, reply_in, event_of};
ghost use Rattle.receiving.specs.Uses.{UseLaws};
ghost use Rattle.faults.specs.Order.{Rises};
ghost use Rattle.faults.specs.Reports.{overwritten};

use crate::judge::{Terms, judge_against};
use faults::report::{Fault, Report};
use faults::rules::Rule;
use judging::upload::Counts;
use lists::code_lists::CodeLists;
use reader::faults::Refusal;
use records::begin::records;
use register::register::Register;
use uploads::calls::Call;
use uploads::opening::open;
use uploads::upload::Upload;

// What a sender hands over: any bytes may come in.
#[derive(Clone, Copy)]
pub struct Delivery<'a> {
    pub sender: &'a [u8],
    // the receipt day, seven digits
    pub day: &'a [u8],
    pub upload: &'a [u8],
}

// Writes the verdict of a record, if there is a row for it.
fn write(verdicts: &mut [Option<Rule>], at: usize, verdict: Option<Rule>)
    ensures { verdicts.new ≡ slice_set verdicts.old at verdict }
{
    if at < verdicts.len() {
        verdicts[at] = verdict;
    }
}

// Judges the records of an upload, one after the other.
fn receive_records<R: Register, L: CodeLists>(
    register: &mut R,
    lists: &L,
    upload: Upload,
    verdicts: &mut [Option<Rule>],
    faults: &mut [Fault],
) -> Counts
    ensures read { Read upload.entry.file.bytes.now }
    ensures judged { AllJudged (setting L.meaning upload.entry.day lists.now) upload.entry.sender.now (records_in upload.entry.file.bytes.now) (R.contents register.old) verdicts.old faults.old result
        (R.contents register.new) verdicts.new faults.new }
{
    let terms = Terms {
        sender: upload.sender,
        today: upload.day,
        lists,
    };
    let mut report = Report::new(faults);
    let mut judged = 0;
    let mut accepted = 0;
    for record in records(upload.file) {
        let at = judged;
        judged += 1;
        let verdict = judge_against(register, &terms, judged, &record, &mut report);
        write(verdicts, at, verdict);
        if verdict.is_none() {
            accepted += 1;
        }
    }
    Counts {
        records: judged,
        accepted,
        faults: report.count(),
    }
}

// What becomes of an upload. `receive` adds what follows from it.
fn answer<R: Register, L: CodeLists>(
    register: &mut R,
    lists: &L,
    delivery: Delivery,
    verdicts: &mut [Option<Rule>],
    faults: &mut [Fault],
) -> Result<Counts, Refusal>
    ensures read { IfOk result (λ _. Read delivery.entry.upload.now) }
    ensures received { Received (R.contents register.old) (event_of (L.meaning lists.now) delivery.entry verdicts.new faults.new result) (R.contents register.new) }
    ensures verdicts { verdicts.new ≡ overwritten verdicts.old (reply_in result verdicts.new faults.new).verdicts }
    ensures faults { faults.new ≡ overwritten faults.old (reply_in result verdicts.new faults.new).faults }
{
    let upload = open(Call {
        sender: delivery.sender,
        day: delivery.day,
        upload: delivery.upload,
        rows: verdicts.len(),
    })?;
    Ok(receive_records(register, lists, upload, verdicts, faults))
}

// Takes an upload in: each record is judged against the register that those before it left, and those that break no rule change it.
// Row i of the verdicts takes the verdict of record i, and the fault rows take the first faults; rows beyond stay. Or the upload
// goes back whole, and register and rows stay as they are. Nothing is allocated.
pub fn receive<R: Register, L: CodeLists>(
    register: &mut R,
    lists: &L,
    delivery: Delivery,
    verdicts: &mut [Option<Rule>],
    faults: &mut [Fault],
) -> Result<Counts, Refusal>
    ensures exact { Exact (R.contents register.old) (event_of (L.meaning lists.now) delivery.entry verdicts.new faults.new result) (R.contents register.new) }
    ensures verdicts { verdicts.new ≡ overwritten verdicts.old (reply_in result verdicts.new faults.new).verdicts }
    ensures faults { faults.new ≡ overwritten faults.old (reply_in result verdicts.new faults.new).faults }
    ensures read { IfOk result (λ _. Read delivery.entry.upload.now) }
    ensures filed { IfOk result (λ n. n.accepted ≡ length (accepted_in (event_of (L.meaning lists.now) delivery.entry verdicts.new faults.new result))) }
    ensures order { Rises (reply_in result verdicts.new faults.new).faults }
    ensures uses { UseLaws (R.contents register.old) (event_of (L.meaning lists.now) delivery.entry verdicts.new faults.new result) (R.contents register.new) }
{
    answer(register, lists, delivery, verdicts, faults)
}
