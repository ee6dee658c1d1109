// The orders of a record.
ghost use Rattle.std.specs.Prelude.{◌≡◌, [], ◌∷◌};
ghost use Rattle.cursor.specs.Left.{left};

use crate::part::OpenPart;
use cursor::cursor::{Cursor, Piece};
use grammar::states::{Element, Segment, Tag};

// What comes first: an order or </MB>.
#[derive(Clone, Copy)]
pub(crate) enum Ahead<'a> {
    Order(OpenPart<'a>),
    // the part that stands for the orders of a record without one
    Close(OpenPart<'a>),
}

impl<'a> Ahead<'a> {
    ghost use Rattle.records.specs.Ahead.{Meets};

    pub(crate) fn of(from: Cursor<'a>) -> Ahead<'a>
        ensures { Meets from.entry.upload.now (left from.entry) result }
    {
        let mut cursor = from;
        let mut behind = cursor;
        while let Some(piece) = behind.next() {
            match piece {
                Piece::Structure {
                    tag: Tag::Open(Element::Mb2),
                    place,
                } => {
                    return Ahead::Order(OpenPart {
                        segment: Segment::Order,
                        tag: place,
                        cursor: behind,
                    });
                }
                Piece::Structure {
                    tag: Tag::Close(Element::Mb),
                    place,
                } => {
                    return Ahead::Close(OpenPart {
                        segment: Segment::Order,
                        tag: place,
                        cursor,
                    });
                }
                _ => cursor = behind,
            }
        }
        Ahead::Close(OpenPart {
            segment: Segment::Order,
            tag: 0,
            cursor,
        })
    }
}

// An iterator over the orders up to </MB>. Where there is none, it gives the one part that stands for them.
#[derive(Clone, Copy)]
pub struct Orders<'a> {
    pub cursor: Cursor<'a>,
    pub given: bool,
}

impl<'a> Iterator for Orders<'a> {
    ghost use Rattle.std.specs.Iterator.{item_count};
    ghost use Rattle.records.specs.Reading.{orders_left, GivesOrder};

    type Item = OpenPart<'a>;

    ghost next_gives = { GivesOrder };

    ghost remaining = { item_count orders_left };

    fn next(&mut self) -> Option<OpenPart<'a>> {
        match Ahead::of(self.cursor) {
            Ahead::Close(_) if self.given => None,
            Ahead::Order(part) | Ahead::Close(part) => {
                self.cursor = part.cursor;
                self.given = true;
                Some(part)
            }
        }
    }
}
