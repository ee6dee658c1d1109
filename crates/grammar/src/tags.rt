// The tags of the structure: how each is spelled, where it stands and where it leads.
ghost use Rattle.std.specs.Prelude.{◌≡◌};
ghost use Rattle.grammar.specs.Grammar.{declaration, spelling};
ghost use Rattle.grammar.specs.Tags.{behind, element, wanted};

use crate::states::{Element, Segment, State, Tag, Wanted};

// What every upload begins with.
pub fn declaration_text() -> &'static [u8]
    ensures { result.now ≡ declaration }
{
    b"<?xml version=\"1.0\" encoding=\"Big5\"?>"
}

impl Tag {
    pub fn text(self) -> &'static [u8]
        ensures { result.now ≡ spelling self }
    {
        match self {
            Tag::Open(Element::Recs) => b"<RECS>",
            Tag::Open(Element::Rec) => b"<REC>",
            Tag::Open(Element::Msh) => b"<MSH>",
            Tag::Open(Element::Mb) => b"<MB>",
            Tag::Open(Element::Mb1) => b"<MB1>",
            Tag::Open(Element::Mb2) => b"<MB2>",
            Tag::Close(Element::Recs) => b"</RECS>",
            Tag::Close(Element::Rec) => b"</REC>",
            Tag::Close(Element::Msh) => b"</MSH>",
            Tag::Close(Element::Mb) => b"</MB>",
            Tag::Close(Element::Mb1) => b"</MB1>",
            Tag::Close(Element::Mb2) => b"</MB2>",
        }
    }

    // The state behind the tag.
    pub fn leads_to(self) -> State
        ensures { result ≡ behind self }
    {
        match self {
            Tag::Open(Element::Recs) => State::Records,
            Tag::Open(Element::Rec) => State::Record,
            Tag::Open(Element::Msh) => State::Within(Segment::Header),
            Tag::Open(Element::Mb) => State::Body,
            Tag::Open(Element::Mb1) => State::Within(Segment::Visit),
            Tag::Open(Element::Mb2) => State::Within(Segment::Order),
            Tag::Close(Element::Recs) => State::Done,
            Tag::Close(Element::Rec) => State::Records,
            Tag::Close(Element::Msh) => State::Headed,
            Tag::Close(Element::Mb) => State::Bodied,
            Tag::Close(Element::Mb1) => State::Orders,
            Tag::Close(Element::Mb2) => State::Orders,
        }
    }
}

impl Segment {
    // The element that holds the segment. A method and no `From`: a segment does not become an element.
    pub fn element(self) -> Element
        ensures { result ≡ element self }
    {
        match self {
            Segment::Header => Element::Msh,
            Segment::Visit => Element::Mb1,
            Segment::Order => Element::Mb2,
        }
    }
}

impl State {
    // What may stand here. In a state that knows both an opening and a closing tag, `closes` tells them apart.
    pub fn wants(self, closes: bool) -> Wanted
        ensures { result ≡ wanted self closes }
    {
        match (self, closes) {
            (State::Start, _) => Wanted::Structure(Tag::Open(Element::Recs)),
            (State::Records, false) => Wanted::Structure(Tag::Open(Element::Rec)),
            (State::Records, true) => Wanted::Structure(Tag::Close(Element::Recs)),
            (State::Record, _) => Wanted::Structure(Tag::Open(Element::Msh)),
            (State::Within(segment), false) => Wanted::Field(segment),
            (State::Within(segment), true) => Wanted::Structure(Tag::Close(segment.element())),
            (State::Headed, _) => Wanted::Structure(Tag::Open(Element::Mb)),
            (State::Body, _) => Wanted::Structure(Tag::Open(Element::Mb1)),
            (State::Orders, false) => Wanted::Structure(Tag::Open(Element::Mb2)),
            (State::Orders, true) => Wanted::Structure(Tag::Close(Element::Mb)),
            (State::Bodied, _) => Wanted::Structure(Tag::Close(Element::Rec)),
            (State::Done, _) => Wanted::Nothing,
        }
    }
}
