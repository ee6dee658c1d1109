// Where the reader stands, and what it reads there.
use grammar::states::{FieldId, Segment, State};

// A state between tags, or a place in a field.
#[derive(Clone, Copy, PartialEq, Eq, Debug)]
pub enum Station {
    Between(State),
    // behind the opening tag of a field
    Opened(Segment, FieldId),
    // behind the value of a field
    Filled(Segment, FieldId),
}

impl Station {
    ghost use Rattle.std.specs.Prelude.{◌≡◌};
    ghost use Rattle.reader.specs.Moves.{may_end};

    // Whether an upload may end here.
    pub fn may_end(self) -> bool
        ensures { result ≡ may_end self }
    {
        matches!(self, Station::Between(State::Done))
    }
}

// A piece of the upload, and its place: that of a tag is the place of its `<`.
#[derive(Clone, Copy, PartialEq, Eq, Debug)]
pub enum Token<'a> {
    Open { name: &'a [u8], place: usize },
    Close { name: &'a [u8], place: usize },
    Value { bytes: &'a [u8], place: usize },
}
