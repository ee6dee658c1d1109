// A line, word by word.
ghost use Rattle.std.specs.Prelude.{◌≡◌, ◌≢◌, [], ◌∷◌, not, MatchResult};
ghost use Rattle.std.specs.List.{list_any, position};
ghost use Rattle.std.specs.Result.{result_map_both};
ghost use Rattle.commands.specs.Words.{is_blank, is_gap, words_of, words_in, left};

use crate::malformed::Malformed;

// What is left of a line: what stands behind the blank that ended the last word.
#[derive(Clone, Copy)]
pub(crate) struct Words<'a> {
    rest: Option<&'a [u8]>,
}

impl<'a> Words<'a> {
    // All words of the line, if a single blank stands between two, and no other.
    pub(crate) fn read(line: &'a [u8]) -> Result<Words<'a>, Malformed>
        ensures { result_map_both left (λ e. e) result ≡ words_in line.entry.now }
    {
        if has_gap(line) {
            return Err(Malformed::Words);
        }
        Ok(Words { rest: Some(line) })
    }

    // The next word.
    #[tactic(auto, using(crate::proofs::Splitting::cut, crate::proofs::Splitting::uncut))]
    pub(crate) fn next(&mut self) -> Result<&'a [u8], Malformed>
        ensures { MatchResult result
            (λ w. left self.old ≡ w.now ∷ left self.new)
            (λ e. (e ≡ Malformed.Words) × (left self.old ≡ [])) }
    {
        let line = self.rest.ok_or(Malformed::Words)?;
        match first_blank(line) {
            Some(blank) => {
                self.rest = Some(&line[blank + 1..]);
                Ok(&line[..blank])
            }
            None => {
                self.rest = None;
                Ok(line)
            }
        }
    }

    // No word is left.
    #[tactic(auto, using(crate::proofs::Splitting::some_word))]
    pub(crate) fn end(self) -> Result<(), Malformed>
        ensures { MatchResult result
            (λ _. left self.entry ≡ [])
            (λ e. (e ≡ Malformed.Words) × (left self.entry ≢ [])) }
    {
        match self.rest {
            None => Ok(()),
            Some(_) => Err(Malformed::Words),
        }
    }
}

fn first_blank(line: &[u8]) -> Option<usize>
    ensures { result ≡ position is_blank line.now }
{
    line.iter().position(|b| *b == b' ')
}

// Whether a word of the line is empty: a blank begins or ends it, or two follow one another, or nothing stands in it.
fn has_gap(line: &[u8]) -> bool
    ensures { result ≡ list_any is_gap (words_of line.now) }
{
    line.split(|b| *b == b' ').any(|word| word.is_empty())
}
