// The fields of a segment.
use cursor::cursor::{Cursor, Piece};
use grammar::states::FieldId;

// A field as it is written, with the place of its opening tag. Its value begins five bytes behind that; an empty one counts as
// unwritten.
#[derive(Clone, Copy, PartialEq, Eq, Debug)]
pub struct Occurrence<'a> {
    pub id: FieldId,
    pub place: usize,
    pub value: &'a [u8],
}

// An iterator over the fields up to the first tag of the structure.
#[derive(Clone, Copy)]
pub struct Fields<'a> {
    pub cursor: Cursor<'a>,
}

impl<'a> Iterator for Fields<'a> {
    ghost use Rattle.std.specs.Iterator.{item_count};
    ghost use Rattle.records.specs.Reading.{fields_left, GivesField};

    type Item = Occurrence<'a>;

    ghost next_gives = { GivesField };

    ghost remaining = { item_count fields_left };

    fn next(&mut self) -> Option<Occurrence<'a>> {
        let mut ahead = self.cursor;
        match ahead.next()? {
            Piece::Field { id, place, value } => {
                self.cursor = ahead;
                Some(Occurrence { id, place, value })
            }
            // The cursor stays before the tag.
            Piece::Structure { .. } => None,
        }
    }
}
