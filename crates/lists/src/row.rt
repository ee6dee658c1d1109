// Rows of code lists, and which of them are bad.
ghost use Rattle.std.specs.Prelude.{◌≡◌, ◌<◌, false, length, MatchOption};
ghost use Rattle.std.specs.Ordering.{is_lt};
ghost use Rattle.lists.specs.Entries.{IsEntry};
ghost use Rattle.lists.specs.Rows.{row_cmp, is_lawful, is_bad, NoneIsBad, IsFirstBad};

use crate::listed_code::ListedCode;
use crate::span::Span;

// A code of a list with its first and last day, in plain bytes and digits.
#[derive(Clone, Copy)]
pub struct Row<'a> {
    pub list: u8,
    pub code: &'a [u8],
    // the digits of a day; so has `last`
    pub first: &'a [u8],
    pub last: &'a [u8],
}

impl Row<'_> {
    // What the row writes, if it is lawful by itself.
    pub(crate) fn read(&self) -> Option<(ListedCode, Span)>
        ensures { MatchOption result (is_lawful self.now ≡ false) (IsEntry self.now) }
    {
        Some((
            ListedCode::new(self.list, self.code)?,
            Span::read(self.first, self.last)?,
        ))
    }

    fn is_lawful(&self) -> bool
        ensures { result ≡ is_lawful self.now }
    {
        self.read().is_some()
    }

    fn is_below(&self, other: &Row<'_>) -> bool
        ensures { result ≡ is_lt (row_cmp self.now other.now) }
    {
        self.list
            .cmp(&other.list)
            .then(self.code.cmp(other.code))
            .is_lt()
    }
}

// Whether the row is not lawful by itself, or not above the row before it.
fn is_bad(rows: &[Row<'_>], i: usize) -> bool
    requires { i < length rows.now }
    ensures { result ≡ is_bad rows.now i }
{
    !rows[i].is_lawful() || (i > 0 && !rows[i - 1].is_below(&rows[i]))
}

// The index of the first bad row.
pub(crate) fn first_bad(rows: &[Row<'_>]) -> Option<usize>
    ensures { MatchOption result (NoneIsBad rows.now) (IsFirstBad rows.now) }
{
    for i in 0..rows.len() {
        if is_bad(rows, i) {
            return Some(i);
        }
    }
    None
}
