// Whether an upload is lawful in its structure.
ghost use Rattle.std.specs.Prelude.{◌≡◌, IfOk};
ghost use Rattle.reader.specs.Laws.{Judged};
ghost use Rattle.reader.specs.Structures.{structure_of};

use crate::faults::Refusal;
use crate::reader::Reader;
use grammar::lawful::LawfulUpload;

fn read_whole(upload: &[u8]) -> Result<(), Refusal>
    ensures { Judged upload.now result }
{
    let mut reader = Reader::begin(upload)?;
    // A `while let` and no iterator: a step may fail, and requires what the steps before it have made sure of.
    while let Some(_token) = reader.step()? {}
    Ok(())
}

// Reads the upload once: it is lawful, or where and why it is not.
pub fn check_structure<'a>(upload: &'a [u8]) -> Result<LawfulUpload<'a>, Refusal>
    ensures law { Judged upload.entry.now (structure_of result) }
    ensures same { IfOk result (λ l. l.bytes ≡ upload.entry) }
{
    read_whole(upload)?;
    Ok(LawfulUpload { bytes: upload })
}
