// The input: a line with sender and receipt day, then the upload.
ghost use Rattle.uploads.specs.Calls.{call_of};
ghost use Rattle.std.specs.Option.{option_map};
ghost use Rattle.judging.specs.Inputs.{CallIn, Judged};

use crate::upload::{Counts, judge_upload};
use faults::report::Fault;
use lists::code_lists::CodeLists;
use reader::faults::Refusal;
use uploads::calls::{Call, LEAST_ROWS};
use uploads::opening::open;

// The call that an input makes: none, if its first line is not ten bytes, a space, seven bytes and a line feed.
pub fn call_in<'a>(input: &'a [u8]) -> Option<Call<'a>>
    ensures { CallIn input.entry.now (option_map call_of result) }
{
    let (sender, rest) = input.split_at_checked(10)?;
    let (day, rest) = rest.strip_prefix(b" ")?.split_at_checked(7)?;
    let upload = rest.strip_prefix(b"\n")?;
    Some(Call {
        sender,
        day,
        upload,
        rows: LEAST_ROWS,
    })
}

// What becomes of the upload of an input: how many records and faults it has, and its first faults in the rows, of which those
// beyond stay; or why it goes back whole, and then all rows stay. Nothing is allocated.
pub fn judge<L: CodeLists>(input: &[u8], lists: &L, rows: &mut [Fault]) -> Result<Counts, Refusal>
    ensures { Judged (L.meaning lists.now) input.now rows.old result rows.new }
{
    let call = call_in(input).ok_or(Refusal::Call)?;
    let upload = open(call)?;
    Ok(judge_upload(upload, lists, rows))
}
