// Where the reading of an upload begins.
ghost use Rattle.std.specs.Prelude.{◌≡◌};
ghost use Rattle.grammar.specs.Grammar.{Lawful};
ghost use Rattle.grammar.specs.Items.{items_of};
ghost use Rattle.records.specs.Records.{records_of};
ghost use Rattle.records.specs.Reading.{records_left, records_upload};

use crate::passing::Records;
use cursor::cursor::begin;
use grammar::lawful::LawfulUpload;

// The records of an upload, from the first on.
pub fn records<'a>(upload: LawfulUpload<'a>) -> Records<'a>
    ensures records { (l : Lawful upload.entry.bytes.now) → records_left result ≡ records_of (items_of l) }
    ensures upload { records_upload result ≡ upload.entry.bytes.now }
{
    let cursor = begin(upload);
    Records { cursor }
}
