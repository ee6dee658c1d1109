// Answering the commands of a queue.
use crate::failure::{Failure, Trouble};
use crate::input::{KEPT_OF_LINE, KEPT_OF_UPLOAD, command, read_rows, read_upload, rows_of};
use commands::command::Command;
use commands::look_up_line::LookUpLine;
use commands::verdicts_line::VerdictsLine;
use judging::lines::{Line, Row};
use judging::upload::BLANK;
use lists::ordered_lists::NotMade;
use queue::queue::Queue;
use receiving::receive::Delivery;
use std::alloc::{AllocError, Global};
use std::io;
use std::io::{BufRead, Write};

// So many verdict rows are lent at most, and so many report rows.
const MOST_ROWS: usize = 65_536;

// The queue, and room for the line of a row and for an upload. It is asked for only once, so that want of memory never keeps what
// follows a command from being read.
#[derive(Drop)]
pub(crate) struct Relay {
    alloc: Global,
    queue: Queue,
    row: Vec<u8>,
    upload: Vec<u8>,
}

// How many rows of each kind a call lends.
#[derive(Clone, Copy)]
struct Lent {
    verdicts: usize,
    faults: usize,
}

impl Relay {
    pub(crate) fn new(alloc: Global) -> Result<Relay, AllocError> {
        Ok(Relay {
            alloc,
            queue: Queue::new(alloc)?,
            row: Vec::with_capacity(alloc, KEPT_OF_LINE)?,
            upload: vec![in alloc; 0; KEPT_OF_UPLOAD]?,
        })
    }

    // Does what the line commands, and answers it, or tells why it is not done. What follows the command is read from the input.
    pub(crate) fn answer<R: BufRead, W: Write>(
        &mut self,
        line: &[u8],
        input: &mut R,
        out: &mut W,
    ) -> io::Result<()> {
        match self.obey(line, input, out) {
            Ok(()) => Ok(()),
            Err(Trouble::Told(failure)) => writeln!(out, "error {failure}"),
            Err(Trouble::Io(error)) => Err(error),
        }
    }

    fn obey<R: BufRead, W: Write>(
        &mut self,
        line: &[u8],
        input: &mut R,
        out: &mut W,
    ) -> Result<(), Trouble> {
        match command(line)? {
            Command::Register { kind, slots } => {
                self.queue.renew(self.alloc, kind, slots)?;
                writeln!(out, "ok")?;
            }
            Command::Shape => {
                self.queue.use_shapes();
                writeln!(out, "ok")?;
            }
            Command::Rows { count } => self.use_rows(count, input, out)?,
            Command::Receive {
                sender,
                day,
                verdict_rows,
                report_rows,
                length,
            } => {
                let upload = read_upload(input, length, &mut self.upload)?;
                let delivery = Delivery {
                    sender,
                    day,
                    upload,
                };
                let lent = Lent {
                    verdicts: verdict_rows,
                    faults: report_rows,
                };
                receive(self.alloc, &mut self.queue, delivery, lent, out)?;
            }
            Command::LookUp { sender, identifier } => {
                let found = self.queue.look_up(sender, identifier);
                write!(out, "{}", LookUpLine(found))?;
            }
        }
        Ok(())
    }

    fn use_rows<R: BufRead, W: Write>(
        &mut self,
        count: usize,
        input: &mut R,
        out: &mut W,
    ) -> Result<(), Trouble> {
        let text = read_rows(self.alloc, input, count, &mut self.row)?;
        let rows = rows_of(self.alloc, &text, count)?;
        match self.queue.use_rows(self.alloc, &rows) {
            Ok(()) => writeln!(out, "ok")?,
            Err(NotMade::Refused(refusal)) => write!(out, "{}", Line(Err(refusal)))?,
            Err(NotMade::Memory(error)) => return Err(error.into()),
        }
        Ok(())
    }
}

// Takes an upload in, and prints what `judge` prints of it, and then, if it is taken, the verdicts of its records.
fn receive<W: Write>(
    alloc: Global,
    queue: &mut Queue,
    delivery: Delivery<'_>,
    lent: Lent,
    out: &mut W,
) -> Result<(), Trouble> {
    if lent.verdicts > MOST_ROWS || lent.faults > MOST_ROWS {
        return Err(Failure::TooManyRows.into());
    }
    let mut verdicts = vec![in alloc; None; lent.verdicts]?;
    let mut faults = vec![in alloc; BLANK; lent.faults]?;
    let answer = queue.receive(delivery, &mut verdicts, &mut faults);
    write!(out, "{}", Line(answer))?;
    if let Ok(counts) = answer {
        for fault in faults.iter().take(counts.faults) {
            write!(out, "{}", Row(*fault))?;
        }
        // An upload that is taken has no more records than it has verdict rows.
        let records = counts.records.min(verdicts.len());
        write!(out, "{}", VerdictsLine(&verdicts[..records]))?;
    }
    Ok(())
}
