// Whether a call is right, before the upload is looked at.
ghost use Rattle.std.specs.Prelude.{◌≡◌, length};
ghost use Rattle.std.specs.Option.{option_map};
ghost use Rattle.calendar.specs.Days.{date_of};
ghost use Rattle.calendar.specs.Written.{date_in};
ghost use Rattle.uploads.specs.Calls.{is_sender, call_of, right_day, right_length};

use crate::calls::{Call, LEAST_ROWS, MOST_BYTES};
use calendar::day::Day;
use grammar::bytes::are_signs;

// Whether the bytes are a sender: ten of A to Z and 0 to 9.
pub fn is_sender(bytes: &[u8]) -> bool
    ensures { result ≡ is_sender bytes.now }
{
    bytes.len() == 10 && are_signs(bytes)
}

// The receipt day of a call, if the call is right.
pub(crate) fn day_of(call: Call) -> Option<Day>
    ensures { option_map date_of result ≡ right_day (call_of call.entry) }
{
    if !is_sender(call.sender) || call.rows < LEAST_ROWS {
        return None;
    }
    Day::read(call.day)
}

pub(crate) fn has_right_length(upload: &[u8]) -> bool
    ensures { result ≡ right_length upload.now }
{
    !upload.is_empty() && upload.len() <= MOST_BYTES
}
