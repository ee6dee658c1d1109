// Whether a tag of the structure stands where another must.
ghost use Rattle.std.specs.Prelude.{◌↔◌, IsTrue, OnOk, IfErr};
ghost use Rattle.reader.specs.Places.{TagStands, SomeTagStands, OtherStands, Fitting, Misplaced};

use crate::faults::{Cause, Refusal};
use crate::place::Place;
use grammar::states::{Element, State, Tag};

const TAGS: [Tag; 12] = [
    Tag::Open(Element::Recs),
    Tag::Open(Element::Rec),
    Tag::Open(Element::Msh),
    Tag::Open(Element::Mb),
    Tag::Open(Element::Mb1),
    Tag::Open(Element::Mb2),
    Tag::Close(Element::Recs),
    Tag::Close(Element::Rec),
    Tag::Close(Element::Msh),
    Tag::Close(Element::Mb),
    Tag::Close(Element::Mb1),
    Tag::Close(Element::Mb2),
];

impl<'a> Place<'a> {
    fn tag_stands(self, tag: Tag) -> bool
        ensures { IsTrue result ↔ TagStands self.entry.upload.now self.entry.at tag }
    {
        self.past(tag.text(), Cause::Elsewhere).is_ok()
    }

    fn some_tag_stands(self) -> bool
        ensures { IsTrue result ↔ SomeTagStands self.entry.upload.now self.entry.at }
    {
        TAGS.iter().any(|tag| self.tag_stands(*tag))
    }

    fn other_stands(self, wanted: Tag) -> bool
        ensures { IsTrue result ↔ OtherStands self.entry.upload.now self.entry.at wanted }
    {
        !self.tag_stands(wanted) && self.some_tag_stands()
    }

    // Refuses another tag of the structure where <MSH> or <MB1> must stand.
    pub(crate) fn check_segment(self, state: State) -> Result<(), Refusal>
        ensures fitting { OnOk result (Fitting self.entry.upload.now self.entry.at state) }
        ensures misplaced { IfErr result (λ r. Misplaced self.entry.upload.now self.entry.at state r) }
    {
        match state {
            State::Record if self.other_stands(Tag::Open(Element::Msh)) => Err(Refusal::NoHeader {
                place: self.at,
            }),
            State::Body if self.other_stands(Tag::Open(Element::Mb1)) => Err(Refusal::NoVisit {
                place: self.at,
            }),
            _ => Ok(()),
        }
    }
}
