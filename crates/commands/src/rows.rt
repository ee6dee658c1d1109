// The rows of code lists, one to a line.
ghost use Rattle.std.specs.Prelude.{◌≡◌};
ghost use Rattle.commands.specs.Lines.{Reads};
ghost use Rattle.commands.specs.Rows.{told_rows, byte_in, row_in, WritesRow};

use crate::malformed::Malformed;
use crate::numbers::number;
use crate::words::Words;
use lists::row::Row;

// The row that a line writes, without its line feed: list number, code, first and last day. Code and days are any words, and the
// number is any that fits a byte: whether they are right is for the lists to tell.
#[tactic(auto, using(crate::proofs::RowReading::reads))]
pub fn read_row<'a>(line: &'a [u8]) -> Result<Row<'a>, Malformed>
    ensures value { told_rows result ≡ row_in line.entry.now }
    ensures law { Reads WritesRow line.entry.now (told_rows result) }
{
    parts(line)
}

// The same, without its law, so that this is not proved at each exit.
fn parts<'a>(line: &'a [u8]) -> Result<Row<'a>, Malformed>
    ensures { told_rows result ≡ row_in line.entry.now }
{
    let mut words = Words::read(line)?;
    let list = words.next()?;
    let code = words.next()?;
    let first = words.next()?;
    let last = words.next()?;
    words.end()?;
    let list = byte(list)?;
    Ok(Row {
        list,
        code,
        first,
        last,
    })
}

fn byte(word: &[u8]) -> Result<u8, Malformed>
    ensures { result ≡ byte_in word.now }
{
    u8::try_from(number(word)?).or(Err(Malformed::Number))
}
