// A reader of a lawful upload: it carries that the rest is lawful, so no step of it can fail.
ghost use Rattle.std.specs.Prelude.{◌≡◌, ◌≤◌, true, length, drop};
ghost use Rattle.grammar.specs.Grammar.{declaration};
ghost use Rattle.grammar.specs.Threads.{is_lawful_from};

use crate::scan::value_end;
use grammar::ahead::{closes, past_white};
use grammar::lawful::LawfulUpload;
use grammar::states::{FieldId, State, Tag, Wanted};
use grammar::tags::declaration_text;

// What an upload is made of, with the place of the < of its tag or opening tag. A value begins five bytes behind that.
#[derive(Clone, Copy, PartialEq, Eq, Debug)]
pub enum Piece<'a> {
    Structure {
        tag: Tag,
        place: usize,
    },
    Field {
        id: FieldId,
        place: usize,
        value: &'a [u8],
    },
}

// An iterator over the pieces of an upload, which stands between two of them. Upload and place are its own fields, since what
// is promised of it names them. It is copied by whoever reads the same pieces twice, or looks ahead.
#[derive(Clone, Copy)]
pub struct Cursor<'a> {
    pub upload: &'a [u8],
    pub at: usize,
    pub state: State,
    pub ghost within: { at ≤ length upload.now },
    pub ghost rest: { is_lawful_from state (drop at upload.now) ≡ true },
}

// A cursor behind the declaration.
pub fn begin<'a>(upload: LawfulUpload<'a>) -> Cursor<'a>
    ensures upload { result.upload.now ≡ upload.entry.bytes.now }
    ensures at { result.at ≡ length declaration }
    ensures state { result.state ≡ State.Start }
{
    Cursor {
        upload: upload.bytes,
        at: declaration_text().len(),
        state: State::Start,
    }
}

impl<'a> Cursor<'a> {
    ghost use Rattle.std.specs.Prelude.{◌+◌};
    ghost use Rattle.grammar.specs.Ahead.{white_len};
    ghost use Rattle.cursor.specs.Pieces.{Meets};

    // What comes next: it stands at `place`, behind the white space.
    fn wants(&self, place: usize) -> Wanted
        requires { place ≡ self.now.at + white_len (drop self.now.at self.now.upload.now) }
        ensures { Meets self.now.upload.now self.now.at self.now.state place result }
    {
        self.state.wants(closes(self.upload, place))
    }
}

impl<'a> Iterator for Cursor<'a> {
    ghost use Rattle.std.specs.Iterator.{item_count};
    ghost use Rattle.cursor.specs.Left.{left, Advances};

    type Item = Piece<'a>;

    // Each call gives the first of the items that are left, and leaves the others.
    ghost next_gives = { Advances };

    ghost remaining = { item_count left };

    fn next(&mut self) -> Option<Piece<'a>> {
        let place = past_white(self.upload, self.at);
        match self.wants(place) {
            Wanted::Structure(tag) => {
                self.at = place + tag.text().len();
                self.state = tag.leads_to();
                Some(Piece::Structure { tag, place })
            }
            Wanted::Field(_) => {
                // By index: a pattern needs an `else`, which no lawful upload would reach.
                let id = FieldId {
                    letter: self.upload[place + 1],
                    tens: self.upload[place + 2],
                    ones: self.upload[place + 3],
                };
                let end = value_end(self.upload, place + 5);
                let value = &self.upload[place + 5..end];
                self.at = end + 6;
                Some(Piece::Field { id, place, value })
            }
            Wanted::Nothing => None,
        }
    }
}
