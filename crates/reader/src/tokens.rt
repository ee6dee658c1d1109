// Reading one token from a place: it, and the place behind it.
ghost use Rattle.std.specs.Prelude.{◌≡◌, IfOk, IfErr};
ghost use Rattle.grammar.specs.Grammar.{spelling};
ghost use Rattle.grammar.specs.declared.states.Segment.{Segment};
ghost use Rattle.grammar.specs.declared.states.FieldId.{FieldId};
ghost use Rattle.reader.specs.Readings.{part, Breaks, Reads, ReadsStructure, ReadsOpening, OpeningMissing};
ghost use Rattle.reader.specs.Scans.{TextMissing};

use crate::classes::Class;
use crate::faults::{Cause, TagFault};
use crate::place::Place;
use crate::stations::{Station, Token};
use grammar::ahead::closes;
use grammar::states::{FieldId, State, Tag, Wanted};

const OPENING: [Class; 5] = [
    Class::Byte(b'<'),
    Class::Capital,
    Class::Digit,
    Class::Digit,
    Class::Byte(b'>'),
];

impl<'a> Place<'a> {
    // The tag of the structure, and the white space behind it.
    fn structure(self, tag: Tag) -> Result<(Token<'a>, Place<'a>), TagFault>
        ensures upload { IfOk result (λ r. r.1.upload ≡ self.entry.upload) }
        ensures reads { IfOk result (λ r. ReadsStructure self.entry.upload.now self.entry.at tag (part r.0) r.1.at) }
        ensures missing { IfErr result (λ f. TextMissing self.entry.upload.now self.entry.at (spelling tag) Cause.Elsewhere f) }
    {
        let end = self.past(tag.text(), Cause::Elsewhere)?;
        // By index, here and below: name and value lie between places that have been read, and a pattern would test them again.
        let token = match tag {
            Tag::Open(_) => Token::Open {
                name: &self.upload[self.at + 1..end.at - 1],
                place: self.at,
            },
            Tag::Close(_) => Token::Close {
                name: &self.upload[self.at + 2..end.at - 1],
                place: self.at,
            },
        };
        Ok((token, end.past_white()))
    }

    // The opening tag of a field.
    fn opening(self) -> Result<(Token<'a>, Place<'a>), TagFault>
        ensures upload { IfOk result (λ r. r.1.upload ≡ self.entry.upload) }
        ensures reads { IfOk result (λ r. ReadsOpening self.entry.upload.now self.entry.at (part r.0) r.1.at) }
        ensures missing { IfErr result (λ f. OpeningMissing self.entry.upload.now self.entry.at f) }
    {
        let end = self.past(&OPENING, Cause::Elsewhere)?;
        let token = Token::Open {
            name: &self.upload[self.at + 1..end.at - 1],
            place: self.at,
        };
        Ok((token, end))
    }

    // The tag between others.
    pub(crate) fn tag(self, state: State) -> Result<(Token<'a>, Place<'a>), TagFault>
        ensures upload { IfOk result (λ r. r.1.upload ≡ self.entry.upload) }
        ensures reads { IfOk result (λ r. Reads self.entry.upload.now self.entry.at (Station.Between state) (part r.0) r.1.at) }
        ensures breaks { IfErr result (λ f. Breaks self.entry.upload.now self.entry.at (Station.Between state) f) }
    {
        match state.wants(closes(self.upload, self.at)) {
            Wanted::Structure(tag) => self.structure(tag),
            Wanted::Field(_) => self.opening(),
            Wanted::Nothing => Err(self.fault(Cause::Elsewhere)),
        }
    }

    // The value of a field.
    pub(crate) fn value(self) -> Result<(Token<'a>, Place<'a>), TagFault>
        ensures upload { IfOk result (λ r. r.1.upload ≡ self.entry.upload) }
        ensures reads { IfOk result
            (λ r. (g : Segment) (i : FieldId) → Reads self.entry.upload.now self.entry.at (Station.Opened g i) (part r.0) r.1.at) }
        ensures breaks { IfErr result
            (λ f. (g : Segment) (i : FieldId) → Breaks self.entry.upload.now self.entry.at (Station.Opened g i) f) }
    {
        let end = self.value_end()?;
        let token = Token::Value {
            bytes: &self.upload[self.at..end.at],
            place: self.at,
        };
        Ok((token, end))
    }

    // The closing tag of a field, and the white space behind it.
    pub(crate) fn closing(self, id: FieldId) -> Result<(Token<'a>, Place<'a>), TagFault>
        ensures upload { IfOk result (λ r. r.1.upload ≡ self.entry.upload) }
        ensures reads { IfOk result
            (λ r. (g : Segment) → Reads self.entry.upload.now self.entry.at (Station.Filled g id) (part r.0) r.1.at) }
        ensures breaks { IfErr result
            (λ f. (g : Segment) → Breaks self.entry.upload.now self.entry.at (Station.Filled g id) f) }
    {
        let name = self.past(b"</", Cause::Elsewhere)?;
        let end = name.past(&[id.letter, id.tens, id.ones], Cause::ClosingId)?;
        let close = end.past(b">", Cause::Elsewhere)?;
        let token = Token::Close {
            name: &self.upload[name.at..end.at],
            place: self.at,
        };
        Ok((token, close.past_white()))
    }
}
