// The reader: it stands at a place and in a station, and goes on token by token.
ghost use Rattle.std.specs.Prelude.{◌≡◌, IfOk, IfErr, IfSome, IfNone};
ghost use Rattle.reader.specs.Moves.{after, Undeclared, StandsAt, Stops};
ghost use Rattle.grammar.specs.Grammar.{Lawful};
ghost use Rattle.reader.specs.Laws.{Law};
ghost use Rattle.reader.specs.Readings.{part, Reading, Reads};

use crate::faults::{Cause, Refusal, TagFault};
use crate::place::Place;
use crate::stations::Station::{Between, Filled, Opened};
use crate::stations::{Station, Token};
use grammar::states::{FieldId, Segment, State};
use grammar::tags::declaration_text;

#[derive(Drop)]
pub(crate) struct Reader<'a> {
    place: Place<'a>,
    station: Station,
}

impl<'a> Reader<'a> {
    // Behind the declaration.
    pub(crate) fn begin(upload: &'a [u8]) -> Result<Reader<'a>, Refusal>
        ensures upload { IfOk result (λ r. r.place.upload ≡ upload.entry) }
        ensures begun { IfOk result (λ r. StandsAt upload.entry.now r.place.at r.station) }
        ensures refused { IfErr result (λ f. Undeclared upload.entry.now f) }
    {
        // A match and no `From`: whatever part of the declaration is wrong, it is one refusal.
        match Place::first(upload).past(declaration_text(), Cause::Elsewhere) {
            Ok(end) => Ok(Reader {
                place: end.past_white(),
                station: Between(State::Start),
            }),
            Err(TagFault::Wrong { place, .. } | TagFault::Ended { place }) => {
                Err(Refusal::Declaration { place })
            }
        }
    }

    // The token that stands here, and the place behind it.
    fn read(&self) -> Result<(Token<'a>, Place<'a>), Refusal>
        ensures upload { IfOk result (λ r. r.1.upload ≡ self.entry.now.place.upload) }
        ensures reads { IfOk result (λ r. Reads self.entry.now.place.upload.now self.entry.now.place.at self.entry.now.station (part r.0) r.1.at) }
        ensures stops { IfErr result (λ r. Stops self.entry.now.place.upload.now self.entry.now.place.at self.entry.now.station r) }
    {
        match self.station {
            Between(state) => {
                self.place.check_segment(state)?;
                Ok(self.place.tag(state)?)
            }
            Opened(..) => Ok(self.place.value()?),
            Filled(_, id) => Ok(self.place.closing(id)?),
        }
    }

    // Goes to the place and the station behind a token. Some pairs of the match are never met, since no such token may stand
    // there; there the station stays.
    fn advance(&mut self, token: Token<'a>, behind: Place<'a>)
        ensures upload { self.new.place.upload ≡ behind.entry.upload }
        ensures at { self.new.place.at ≡ behind.entry.at }
        ensures station { self.new.station ≡ after self.old.station (part token.entry) }
    {
        self.place = behind;
        self.station = match (self.station, token) {
            (Between(State::Start), Token::Open { .. }) => Between(State::Records),
            (Between(State::Records), Token::Open { .. }) => Between(State::Record),
            (Between(State::Records), Token::Close { .. }) => Between(State::Done),
            (Between(State::Record), Token::Open { .. }) => Between(State::Within(Segment::Header)),
            (
                Between(State::Within(segment)),
                Token::Open {
                    name: &[letter, tens, ones],
                    ..
                },
            ) => { Opened(segment, FieldId { letter, tens, ones }) }
            (Between(State::Within(Segment::Header)), Token::Close { .. }) => Between(
                State::Headed,
            ),
            (Between(State::Within(_)), Token::Close { .. }) => Between(State::Orders),
            (Between(State::Headed), Token::Open { .. }) => Between(State::Body),
            (Between(State::Body), Token::Open { .. }) => Between(State::Within(Segment::Visit)),
            (Between(State::Orders), Token::Open { .. }) => Between(State::Within(Segment::Order)),
            (Between(State::Orders), Token::Close { .. }) => Between(State::Bodied),
            (Between(State::Bodied), Token::Close { .. }) => Between(State::Records),
            (Opened(segment, id), Token::Value { .. }) => Filled(segment, id),
            (Filled(segment, _), Token::Close { .. }) => Between(State::Within(segment)),
            (station, _) => station,
        };
    }

    // Goes on by one token; none is left at the end of a lawful upload.
    pub(crate) fn step(&mut self) -> Result<Option<Token<'a>>, Refusal>
        requires { StandsAt self.old.place.upload.now self.old.place.at self.old.station }
        ensures upload { self.new.place.upload ≡ self.old.place.upload }
        ensures reads { IfOk result (λ o. IfSome o (λ x. Reading self.old.place.upload.now self.old.place.at self.old.station (part x) self.new.station self.new.place.at)) }
        ensures ends { IfOk result (λ o. IfNone o (Lawful self.old.place.upload.now)) }
        ensures refused { IfErr result (λ r. Law self.old.place.upload.now (Err r)) }
    {
        match self.place.byte() {
            None if self.station.may_end() => Ok(None),
            None => Err(Refusal::CutShort {
                place: self.place.at,
            }),
            Some(_) => {
                let (token, behind) = self.read()?;
                self.advance(token, behind);
                Ok(Some(token))
            }
        }
    }
}
