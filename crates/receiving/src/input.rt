// What judge does with its input: a line with sender and receipt day, and then the upload.
ghost use Rattle.receiving.specs.Inputs.{Judged};

use crate::receive::{Delivery, receive};
use faults::report::Fault;
use faults::rules::Rule;
use judging::input::call_in;
use judging::upload::Counts;
use lists::code_lists::CodeLists;
use reader::faults::Refusal;
use register::register::Register;

// Receives the upload of an input. If its first line is not right, it is refused, and register and rows stay.
pub fn judge<R: Register, L: CodeLists>(
    input: &[u8],
    register: &mut R,
    lists: &L,
    verdicts: &mut [Option<Rule>],
    faults: &mut [Fault],
) -> Result<Counts, Refusal>
    ensures { Judged (L.meaning lists.now) input.now (R.contents register.old) verdicts.old faults.old
        (record { answer = result; contents = R.contents register.new; verdicts = verdicts.new; faults = faults.new }) }
{
    let call = call_in(input).ok_or(Refusal::Call)?;
    let delivery = Delivery {
        sender: call.sender,
        day: call.day,
        upload: call.upload,
    };
    receive(register, lists, delivery, verdicts, faults)
}
