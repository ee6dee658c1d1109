// What is counted and looked for while the pieces of a lawful upload go by.
ghost use Rattle.std.specs.Prelude.{◌≡◌, ◌≢◌, ◌<◌, ◌≤◌, ℕ, [], ◌∷◌, ◌++◌, List, IsTrue, ◌↔◌, SomeIff};
ghost use Rattle.grammar.specs.Items.{Item, value_place};
ghost use Rattle.cursor.specs.Pieces.{item};
ghost use Rattle.limits.specs.Limits.{place_of, IsBeyond, IsForeign};
ghost use Rattle.limits.specs.Tallies.{Counted, Tallied};

use cursor::cursor::Piece;
use grammar::states::{Element, FieldId, Tag};

// How many records an upload may have.
pub const MOST_RECORDS: usize = 4_096;

// How many orders a record may have.
pub const MOST_ORDERS: usize = 999;

// The field that names the sender.
const M05: FieldId = FieldId {
    letter: b'M',
    tens: b'0',
    ones: b'5',
};

// What the pass finds: the number of records, the place of the first tag beyond its limit, and that of the first value that
// names another sender.
#[derive(Clone, Copy, PartialEq, Eq, Debug)]
pub struct Survey {
    pub records: usize,
    pub beyond: Option<usize>,
    pub foreign: Option<usize>,
}

// What has been found so far, of an upload of the sender. The orders are those of the last record.
#[derive(Clone, Copy)]
pub(crate) struct Tally<'a> {
    pub(crate) found: Survey,
    pub(crate) orders: usize,
    pub(crate) sender: &'a [u8],
}

impl<'a> Tally<'a> {
    pub(crate) fn new(sender: &'a [u8]) -> Tally<'a>
        ensures { Tallied sender.now [] result }
    {
        Tally {
            found: Survey {
                records: 0,
                beyond: None,
                foreign: None,
            },
            orders: 0,
            sender,
        }
    }

    // One piece more.
    pub(crate) fn note(&mut self, piece: Piece)
        requires records { self.old.found.records < usize.MAX }
        requires orders { self.old.orders < usize.MAX }
        requires place { value_place (place_of (item piece)) ≤ usize.MAX }
        ensures { (sender : List ℕ) (is : List Item) → Tallied sender is self.old →
            Tallied sender (is ++ item piece.entry ∷ []) self.new }
    {
        self.found.beyond = self.found.beyond.or(self.beyond_at(piece));
        self.found.foreign = self.found.foreign.or(self.foreign_at(piece));
        self.count(piece);
    }

    // Where a piece stands if its limit is reached already.
    fn beyond_at(&self, piece: Piece) -> Option<usize>
        ensures { (is : List Item) → Counted is self.now →
            SomeIff result (IsBeyond is (item piece.entry)) (place_of (item piece.entry)) }
    {
        match piece {
            Piece::Structure {
                tag: Tag::Open(Element::Rec),
                place,
            } if self.found.records >= MOST_RECORDS => Some(place),
            Piece::Structure {
                tag: Tag::Open(Element::Mb2),
                place,
            } if self.orders >= MOST_ORDERS => Some(place),
            _ => None,
        }
    }

    // Where the value of a piece stands, five bytes behind its place, if the piece names another sender.
    fn foreign_at(&self, piece: Piece) -> Option<usize>
        requires { value_place (place_of (item piece)) ≤ usize.MAX }
        ensures { SomeIff result (IsForeign self.now.sender.now (item piece.entry)) (value_place (place_of (item piece.entry))) }
    {
        match piece {
            Piece::Field {
                id: M05,
                place,
                value,
            } if self.is_foreign(value) => Some(place + 5),
            _ => None,
        }
    }

    // Whether a value is written, and not the sender.
    fn is_foreign(&self, value: &[u8]) -> bool
        ensures { IsTrue result ↔ (value.now ≢ []) × (value.now ≢ self.now.sender.now) }
    {
        !value.is_empty() && value != self.sender
    }

    // Counts the piece if a record or an order begins with it.
    fn count(&mut self, piece: Piece)
        requires records { self.old.found.records < usize.MAX }
        requires orders { self.old.orders < usize.MAX }
        ensures counted { (is : List Item) → Counted is self.old → Counted (is ++ item piece.entry ∷ []) self.new }
        ensures beyond { self.new.found.beyond ≡ self.old.found.beyond }
        ensures foreign { self.new.found.foreign ≡ self.old.found.foreign }
        ensures sender { self.new.sender ≡ self.old.sender }
    {
        match piece {
            Piece::Structure {
                tag: Tag::Open(Element::Rec),
                ..
            } => {
                self.found.records += 1;
                self.orders = 0;
            }
            Piece::Structure {
                tag: Tag::Open(Element::Mb2),
                ..
            } => self.orders += 1,
            _ => {}
        }
    }
}
