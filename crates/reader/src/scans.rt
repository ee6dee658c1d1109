// Reading bytes on from a place.
ghost use Rattle.std.specs.Prelude.{◌≡◌, ◌+◌, ◌<◌, true, length, IfOk, IfErr, IfSome, IfNone, slice_index};
ghost use Rattle.reader.specs.Scans.{ByteMissing, Stands, Missing, SkipsWhite, IsCharacter, ValueEnds, ValueBreaks};

use crate::classes::Expected;
use crate::faults::{Cause, CharacterFault, TagFault};
use crate::place::Place;
use grammar::ahead::past_white;
use grammar::bytes::{is_lead, is_plain, is_trail};

impl<'a> Place<'a> {
    // The place behind the byte here, if it is one that is expected.
    fn past_byte<E: Expected>(self, expected: E, cause: Cause) -> Result<Place<'a>, TagFault>
        ensures upload { IfOk result (λ p. p.upload ≡ self.entry.upload) }
        ensures behind { IfOk result (λ p. p.at ≡ self.entry.at + 1) }
        ensures within { IfOk result (λ p. self.entry.at < length self.entry.upload.now) }
        ensures takes { IfOk result (λ p. E.takes expected (slice_index self.entry.upload.now self.entry.at) ≡ true) }
        ensures missing { IfErr result (λ f. ByteMissing self.entry.upload.now self.entry.at (E.takes expected) cause f) }
    {
        match self.byte() {
            Some((b, behind)) if expected.takes(b) => Ok(behind),
            _ => Err(self.fault(cause)),
        }
    }

    // The place behind the bytes that are expected, if they stand here.
    pub(crate) fn past<E: Expected>(
        self,
        expected: &[E],
        cause: Cause,
    ) -> Result<Place<'a>, TagFault>
        ensures upload { IfOk result (λ p. p.upload ≡ self.entry.upload) }
        ensures ends { IfOk result (λ p. p.at ≡ self.entry.at + length expected.entry.now) }
        ensures stands { IfOk result (λ p. Stands E.takes self.entry.upload.now self.entry.at expected.entry.now p.at) }
        ensures missing { IfErr result (λ f. Missing E.takes self.entry.upload.now self.entry.at expected.entry.now cause f) }
    {
        let mut place = self;
        for e in expected {
            place = place.past_byte(*e, cause)?;
        }
        Ok(place)
    }

    // The place behind the white space that begins here.
    pub(crate) fn past_white(self) -> Place<'a>
        ensures upload { result.upload ≡ self.entry.upload }
        ensures skips { SkipsWhite self.entry.upload.now self.entry.at result.at }
    {
        Place {
            upload: self.upload,
            at: past_white(self.upload, self.at),
        }
    }

    // The place behind the character here, or none where a `<` ends the value.
    fn past_character(self) -> Result<Option<Place<'a>>, CharacterFault>
        ensures upload { IfOk result (λ o. IfSome o (λ p. p.upload ≡ self.entry.upload)) }
        ensures is { IfOk result (λ o. IfSome o (λ p. IsCharacter self.entry.upload.now self.entry.at p.at)) }
        ensures within { IfOk result (λ o. IfNone o (self.entry.at < length self.entry.upload.now)) }
        ensures bracket { IfOk result (λ o. IfNone o (slice_index self.entry.upload.now self.entry.at ≡ 0x3c)) }
        ensures breaks { IfErr result (λ f. ValueBreaks self.entry.upload.now self.entry.at f) }
    {
        let Some((first, behind)) = self.byte() else {
            return Err(CharacterFault::Ended { place: self.at });
        };
        if first == b'<' {
            return Ok(None);
        }
        if is_plain(first) {
            return Ok(Some(behind));
        }
        if !is_lead(first) {
            return Err(CharacterFault::Wrong { place: self.at });
        }
        match behind.byte() {
            Some((second, end)) if is_trail(second) => Ok(Some(end)),
            Some(_) => Err(CharacterFault::Wrong { place: behind.at }),
            None => Err(CharacterFault::Ended { place: behind.at }),
        }
    }

    // The place of the `<` that ends the value that begins here.
    pub(crate) fn value_end(self) -> Result<Place<'a>, CharacterFault>
        ensures upload { IfOk result (λ p. p.upload ≡ self.entry.upload) }
        ensures ends { IfOk result (λ p. ValueEnds self.entry.upload.now self.entry.at p.at) }
        ensures breaks { IfErr result (λ f. ValueBreaks self.entry.upload.now self.entry.at f) }
    {
        let mut place = self;
        while let Some(behind) = place.past_character()? {
            place = behind;
        }
        Ok(place)
    }
}
