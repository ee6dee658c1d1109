// A pass over a lawful upload.
ghost use Rattle.std.specs.Prelude.{◌≡◌, MatchOption};
ghost use Rattle.grammar.specs.Grammar.{Lawful};
ghost use Rattle.grammar.specs.Items.{items_of};
ghost use Rattle.limits.specs.Records.{records_in};
ghost use Rattle.limits.specs.Limits.{NoneBeyond, FirstBeyond, NoneForeign, FirstForeign};

use crate::tally::{Survey, Tally};
use cursor::cursor::begin;
use grammar::lawful::LawfulUpload;

// The upload holds one list of tags and fields, whatever way it is read, and of that list the answers are right.
pub fn survey(upload: LawfulUpload, sender: &[u8]) -> Survey
    ensures one_list { (l m : Lawful upload.entry.bytes.now) → items_of l ≡ items_of m }
    ensures records { (l : Lawful upload.entry.bytes.now) → result.records ≡ records_in (items_of l) }
    ensures beyond { (l : Lawful upload.entry.bytes.now) → MatchOption result.beyond (NoneBeyond (items_of l)) (FirstBeyond (items_of l)) }
    ensures foreign { (l : Lawful upload.entry.bytes.now) →
        MatchOption result.foreign (NoneForeign sender.now (items_of l)) (FirstForeign sender.now (items_of l)) }
{
    let mut tally = Tally::new(sender);
    for piece in begin(upload) {
        tally.note(piece);
    }
    tally.found
}
