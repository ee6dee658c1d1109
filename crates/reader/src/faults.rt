// What can be wrong, layer by layer: in a character, in a tag, with an upload or the rows of code lists.
ghost use Rattle.std.specs.Prelude.{◌≡◌};
ghost use Rattle.reader.specs.Refusals.{number_of, cause_of, place_of, cause_number, character_to_tag, tag_to_refusal};

// In which part of an unlawful upload the first wrong byte stands.
#[derive(Clone, Copy, PartialEq, Eq, Debug)]
pub enum Cause {
    // in a value
    Value,
    // in the three bytes of the ID in a field's closing tag
    ClosingId,
    Elsewhere,
}

// The number of a cause in the format.
impl From<Cause> for u8 {
    ghost from_gives = { λ c n. n ≡ cause_number c };

    fn from(cause: Cause) -> u8 {
        match cause {
            Cause::Value => 1,
            Cause::ClosingId => 2,
            Cause::Elsewhere => 3,
        }
    }
}

// No character stands at the place, or the upload ends there. A type of its own, since a character has no cause to tell:
// `From` adds it.
#[derive(Clone, Copy, PartialEq, Eq, Debug)]
pub enum CharacterFault {
    Wrong { place: usize },
    Ended { place: usize },
}

// A tag or a value breaks off at the place, or the upload ends there.
#[derive(Clone, Copy, PartialEq, Eq, Debug)]
pub enum TagFault {
    Wrong { cause: Cause, place: usize },
    Ended { place: usize },
}

// Why an upload goes back whole, or rows of code lists are refused, and the place. Numbered as the format numbers them.
#[derive(Clone, Copy, PartialEq, Eq, Debug)]
pub enum Refusal {
    // 1: no bytes, or too many
    Length,
    // 2: it does not begin with the whole declaration
    Declaration { place: usize },
    // 3: another byte than any lawful upload could have there
    Unlawful { cause: Cause, place: usize },
    // 4: another tag of the structure stands where <MSH> must
    NoHeader { place: usize },
    // 5: another tag of the structure stands where <MB1> must
    NoVisit { place: usize },
    // 6: it ends before it is whole
    CutShort { place: usize },
    // 7: a clinic other than the sender is written
    Foreign { place: usize },
    // 8: too many records, or orders in a record
    TooMany { place: usize },
    // 9: the relay's own call is wrong
    Call,
    // 10: a row of the relay's own code lists is wrong; rows count from 0
    Row { place: usize },
}

impl From<CharacterFault> for TagFault {
    ghost from_gives = { λ f r. r ≡ character_to_tag f };

    fn from(f: CharacterFault) -> TagFault {
        match f {
            CharacterFault::Wrong { place } => TagFault::Wrong {
                cause: Cause::Value,
                place,
            },
            CharacterFault::Ended { place } => TagFault::Ended { place },
        }
    }
}

impl From<TagFault> for Refusal {
    ghost from_gives = { λ f r. r ≡ tag_to_refusal f };

    fn from(f: TagFault) -> Refusal {
        match f {
            TagFault::Wrong { cause, place } => Refusal::Unlawful { cause, place },
            TagFault::Ended { place } => Refusal::CutShort { place },
        }
    }
}

impl Refusal {
    // A method and no From: the number is one of three things that a refusal tells.
    pub fn number(self) -> u8
        ensures { result ≡ number_of self }
    {
        match self {
            Refusal::Length => 1,
            Refusal::Declaration { .. } => 2,
            Refusal::Unlawful { .. } => 3,
            Refusal::NoHeader { .. } => 4,
            Refusal::NoVisit { .. } => 5,
            Refusal::CutShort { .. } => 6,
            Refusal::Foreign { .. } => 7,
            Refusal::TooMany { .. } => 8,
            Refusal::Call => 9,
            Refusal::Row { .. } => 10,
        }
    }

    pub fn cause(self) -> Option<Cause>
        ensures { result ≡ cause_of self }
    {
        match self {
            Refusal::Unlawful { cause, .. } => Some(cause),
            _ => None,
        }
    }

    pub fn place(self) -> Option<usize>
        ensures { result ≡ place_of self }
    {
        match self {
            Refusal::Length | Refusal::Call => None,
            Refusal::Declaration { place }
            | Refusal::Unlawful { place, .. }
            | Refusal::NoHeader { place }
            | Refusal::NoVisit { place }
            | Refusal::CutShort { place }
            | Refusal::Foreign { place }
            | Refusal::TooMany { place }
            | Refusal::Row { place } => Some(place),
        }
    }
}
