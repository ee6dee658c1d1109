// Reading commands and what follows them.
use crate::failure::{Failure, Trouble};
use commands::command::Command;
use commands::rows::read_row;
use lists::row::Row;
use std::alloc::Global;
use std::io;
use std::io::{BufRead, ErrorKind, Read};
use uploads::calls::MOST_BYTES;

// A line of more bytes is none that is understood.
const LONGEST_LINE: usize = 4_096;

// How much is kept of a line: a byte more, so that a longer line shows.
pub(crate) const KEPT_OF_LINE: usize = LONGEST_LINE + 1;

// How much is kept of an upload. A longer one goes back whole for its length, whatever its bytes are, so a byte more than the
// greatest length is enough, and memory does not grow with the input.
pub(crate) const KEPT_OF_UPLOAD: usize = MOST_BYTES + 1;

// Reads the next line without its line feed, or what is kept of it; false, if the input has ended.
pub(crate) fn read_line<R: BufRead>(input: &mut R, line: &mut Vec<u8>) -> io::Result<bool> {
    line.clear();
    let read = input
        .by_ref()
        .take(KEPT_OF_LINE as u64)
        .read_until(b'\n', line)?;
    if line.ends_with(b"\n") {
        line.pop();
    } else {
        input.skip_until(b'\n')?;
    }
    Ok(read > 0)
}

fn is_too_long(line: &[u8]) -> bool {
    line.len() > LONGEST_LINE
}

// The command of a line.
pub(crate) fn command<'a>(line: &'a [u8]) -> Result<Command<'a>, Failure> {
    if is_too_long(line) {
        return Err(Failure::LongLine);
    }
    Ok(Command::read(line)?)
}

// The row of a line.
fn row<'a>(line: &'a [u8]) -> Result<Row<'a>, Failure> {
    if is_too_long(line) {
        return Err(Failure::LongLine);
    }
    Ok(read_row(line)?)
}

// Adds the line of a row, and a line feed, if it is one.
fn add_row(text: &mut Vec<u8>, line: &[u8]) -> Result<(), Failure> {
    row(line)?;
    text.extend_from_slice(line)?;
    text.push(b'\n')?;
    Ok(())
}

// Reads so many rows, and gives their lines. All are read, also behind one that is none, or for which there is no memory; `line` has
// room for each in turn.
pub(crate) fn read_rows<R: BufRead>(
    alloc: Global,
    input: &mut R,
    count: usize,
    line: &mut Vec<u8>,
) -> Result<Vec<u8>, Trouble> {
    let mut text = Vec::new(alloc);
    let mut added = Ok(());
    for _ in 0..count {
        if !read_line(input, line)? {
            return Err(Failure::EndsInRows.into());
        }
        if added.is_ok() {
            added = add_row(&mut text, line);
        }
    }
    added?;
    Ok(text)
}

// The rows of so many lines.
pub(crate) fn rows_of<'a>(
    alloc: Global,
    text: &'a [u8],
    count: usize,
) -> Result<Vec<Row<'a>>, Failure> {
    let mut rows = Vec::new(alloc);
    for line in text.split(|b| *b == b'\n').take(count) {
        rows.push(row(line)?)?;
    }
    Ok(rows)
}

// Fills the buffer; false, if the input ends before.
fn fill<R: Read>(input: &mut R, buf: &mut [u8]) -> io::Result<bool> {
    match input.read_exact(buf) {
        Ok(()) => Ok(true),
        Err(error) if error.kind() == ErrorKind::UnexpectedEof => Ok(false),
        Err(error) => Err(error),
    }
}

// Passes over so many bytes; false, if the input ends before.
fn skip<R: Read>(input: &mut R, count: usize) -> io::Result<bool> {
    let count = count as u64;
    Ok(io::copy(&mut input.by_ref().take(count), &mut io::sink())? == count)
}

// Reads an upload of so many bytes and the line feed behind it, and gives what is kept of it. If another byte stands there, the
// line that it begins is read too.
pub(crate) fn read_upload<'a, R: BufRead>(
    input: &mut R,
    length: usize,
    buf: &'a mut [u8],
) -> Result<&'a [u8], Trouble> {
    let kept = length.min(buf.len());
    let upload = &mut buf[..kept];
    let mut next = [0; 1];
    if !fill(input, upload)? || !skip(input, length - kept)? || !fill(input, &mut next)? {
        return Err(Failure::EndsInUpload.into());
    }
    if next != [b'\n'] {
        input.skip_until(b'\n')?;
        return Err(Failure::NoLineFeed.into());
    }
    Ok(upload)
}
