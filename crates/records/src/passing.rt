// The records of an upload, one behind the other.
ghost use Rattle.std.specs.Prelude.{◌≡◌, length, nat_lt};
ghost use Rattle.cursor.specs.Left.{left};
ghost use Rattle.records.specs.Records.{record_ahead, order_parts, Follows};
ghost use Rattle.records.specs.Orderly.{WellFormed};
ghost use Rattle.records.specs.Parts.{InOrder, InOrder-prop};

use crate::orders::{Ahead, Orders};
use crate::part::OpenPart;
use cursor::cursor::{Cursor, Piece};
use grammar::states::{Element, Segment, State, Tag};

// A record that can be read as often as wanted, and that is known to be in order. Its orders come behind its visit.
#[derive(Clone, Copy)]
pub struct OpenRecord<'a> {
    pub header: OpenPart<'a>,
    pub visit: OpenPart<'a>,
    pub ghost in_order: { InOrder header visit } by { InOrder-prop header visit },
}

impl<'a> OpenRecord<'a> {
    ghost use Rattle.records.specs.Reading.{record_of, ReadsFrom, part_upload, orders_left, orders_upload};

    // The record whose items come next.
    fn ahead(from: Cursor<'a>) -> OpenRecord<'a>
        requires { Follows State.Record (left from) }
        ensures record { record_of result ≡ record_ahead (left from.entry) }
        ensures reads { ReadsFrom from.entry.upload.now result }
        ensures stands { WellFormed from.entry.upload.now (record_of result) }
    {
        OpenRecord {
            header: OpenPart::ahead(Segment::Header, from),
            visit: OpenPart::ahead(Segment::Visit, from),
        }
    }

    // Its orders, from the first on, or the one part that stands for them.
    pub fn orders(&self) -> Orders<'a>
        ensures orders { orders_left result ≡ order_parts (record_of self.now) }
        ensures upload { orders_upload result ≡ part_upload self.now.visit }
    {
        Orders {
            cursor: self.visit.cursor,
            given: false,
        }
    }

    // Whether there is an order.
    pub fn has_orders(&self) -> bool
        ensures { result ≡ nat_lt 0 (length (record_of self.now).orders) }
    {
        matches!(Ahead::of(self.visit.cursor), Ahead::Order(_))
    }
}

// An iterator over the records of an upload.
#[derive(Clone, Copy)]
pub struct Records<'a> {
    pub cursor: Cursor<'a>,
}

impl<'a> Iterator for Records<'a> {
    ghost use Rattle.std.specs.Iterator.{item_count};
    ghost use Rattle.records.specs.Reading.{records_left, GivesRecord};

    type Item = OpenRecord<'a>;

    ghost next_gives = { GivesRecord };

    ghost remaining = { item_count records_left };

    fn next(&mut self) -> Option<OpenRecord<'a>> {
        while let Some(piece) = self.cursor.next() {
            match piece {
                Piece::Structure { tag, .. } if tag == Tag::Open(Element::Rec) => {
                    return Some(OpenRecord::ahead(self.cursor));
                }
                _ => {}
            }
        }
        None
    }
}
