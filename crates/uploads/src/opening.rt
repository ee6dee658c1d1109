// What becomes of a call.
ghost use Rattle.std.specs.Prelude.{◌≡◌, length, Some, Err};
ghost use Rattle.std.specs.Option.{option_map};
ghost use Rattle.calendar.specs.Days.{date_of};
ghost use Rattle.grammar.specs.Grammar.{declaration, Lawful};
ghost use Rattle.uploads.specs.Answers.{Answer, Answered, taken_of, SpaceInDeclaration};
ghost use Rattle.uploads.specs.Calls.{call_of};

use crate::calls::Call;
use crate::checks::{day_of, has_right_length};
use crate::upload::Upload;
use cursor::cursor::{Cursor, begin};
use grammar::states::State;
use limits::survey::survey;
use reader::faults::Refusal;
use reader::structure::check_structure;

// The right answer to a call. `open` adds that no other is right, so that this is proved once and not at each exit.
fn answer<'a>(call: Call<'a>) -> Result<Upload<'a>, Refusal>
    ensures { Answer (call_of call.entry) (taken_of result) }
{
    let day = day_of(call).ok_or(Refusal::Call)?;
    if !has_right_length(call.upload) {
        return Err(Refusal::Length);
    }
    let file = check_structure(call.upload)?;
    let found = survey(file, call.sender);
    // Two tests, one after the other: a closure over each place would say no more.
    if let Some(place) = found.beyond {
        return Err(Refusal::TooMany { place });
    }
    if let Some(place) = found.foreign {
        return Err(Refusal::Foreign { place });
    }
    Ok(Upload {
        file,
        sender: call.sender,
        day,
        records: found.records,
    })
}

// Takes an upload, or refuses it whole: the right one of the two, with the right refusal. No other answer is right.
pub fn open<'a>(call: Call<'a>) -> Result<Upload<'a>, Refusal>
    ensures law { Answered (call_of call.entry) (taken_of result) }
    ensures sample { SpaceInDeclaration }
{
    answer(call)
}

impl<'a> Upload<'a> {
    // The pieces of the upload, from its first on.
    pub fn pieces(&self) -> Cursor<'a>
        ensures upload { result.upload.now ≡ self.entry.now.file.bytes.now }
        ensures at { result.at ≡ length declaration }
        ensures state { result.state ≡ State.Start }
    {
        begin(self.file)
    }
}
