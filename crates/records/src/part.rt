// A segment of a record.
ghost use Rattle.std.specs.Prelude.{◌≡◌};
ghost use Rattle.cursor.specs.Left.{left};
ghost use Rattle.records.specs.Records.{part_ahead, behind};
ghost use Rattle.records.specs.Reading.{part_of, part_upload, fields_left, fields_upload};

use crate::fields::Fields;
use cursor::cursor::{Cursor, Piece};
use grammar::states::{Segment, Tag};

// A segment that can be read as often as wanted, with the place of its tag.
#[derive(Clone, Copy)]
pub struct OpenPart<'a> {
    pub segment: Segment,
    pub tag: usize,
    pub cursor: Cursor<'a>,
}

impl<'a> OpenPart<'a> {
    // Its fields, from the first on.
    pub fn fields(&self) -> Fields<'a>
        ensures fields { fields_left result ≡ (part_of self.now).fields }
        ensures upload { fields_upload result ≡ part_upload self.now }
    {
        Fields {
            cursor: self.cursor,
        }
    }

    // The first segment of its kind that begins ahead. There is one ahead of each record; else this gives one without fields.
    pub(crate) fn ahead(segment: Segment, from: Cursor<'a>) -> OpenPart<'a>
        ensures part { part_of result ≡ part_ahead segment (left from.entry) }
        ensures behind { left result.cursor ≡ behind segment (left from.entry) }
        ensures upload { part_upload result ≡ from.entry.upload.now }
    {
        let opening = Tag::Open(segment.element());
        let mut cursor = from;
        while let Some(piece) = cursor.next() {
            match piece {
                Piece::Structure { tag, place } if tag == opening => {
                    return OpenPart {
                        segment,
                        tag: place,
                        cursor,
                    };
                }
                _ => {}
            }
        }
        OpenPart {
            segment,
            tag: 0,
            cursor,
        }
    }
}
