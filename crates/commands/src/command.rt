// The commands, one to a line.
ghost use Rattle.std.specs.Prelude.{◌≡◌};
ghost use Rattle.commands.specs.Commands.{kind_in, told, one_number, register_of, lists_of, receive_of, look_up_of, named, command_in};
ghost use Rattle.commands.specs.Words.{left};
ghost use Rattle.commands.specs.Lines.{Reads};
ghost use Rattle.commands.specs.Written.{Writes};
ghost use Rattle.std.specs.Str.{bytes_eq};

use crate::malformed::Malformed;
use crate::numbers::number;
use crate::words::Words;

#[derive(Clone, Copy, PartialEq, Eq, Debug)]
pub enum Kind {
    Ordered,
    Scattered,
}

impl Kind {
    fn read(word: &[u8]) -> Result<Kind, Malformed>
        ensures { result ≡ kind_in word.now }
    {
        if is(word, "ordered") {
            Ok(Kind::Ordered)
        } else if is(word, "scattered") {
            Ok(Kind::Scattered)
        } else {
            Err(Malformed::Unknown)
        }
    }
}

#[derive(Clone, Copy)]
pub enum Command<'a> {
    // a new empty register
    Register {
        kind: Kind,
        slots: usize,
    },
    // code lists by shape from now on
    Shape,
    // code lists by so many rows from now on, which follow
    Rows {
        count: usize,
    },
    // an upload of so many bytes, which follow
    Receive {
        sender: &'a [u8],
        day: &'a [u8],
        verdict_rows: usize,
        report_rows: usize,
        length: usize,
    },
    LookUp {
        sender: &'a [u8],
        identifier: &'a [u8],
    },
}

impl<'a> Command<'a> {
    // The command that a line writes, without its line feed.
    #[tactic(auto, using(crate::proofs::Reading::reads))]
    pub fn read(line: &'a [u8]) -> Result<Command<'a>, Malformed>
        ensures value { told result ≡ command_in line.entry.now }
        ensures law { Reads Writes line.entry.now (told result) }
    {
        read(line)
    }
}

// The same, without its law, so that this is not proved at each exit.
fn read<'a>(line: &'a [u8]) -> Result<Command<'a>, Malformed>
    ensures { told result ≡ command_in line.entry.now }
{
    let mut words = Words::read(line)?;
    let name = words.next()?;
    named(name, words)
}

fn named<'a>(name: &[u8], words: Words<'a>) -> Result<Command<'a>, Malformed>
    ensures { told result ≡ named name.now (left words.entry) }
{
    if is(name, "register") {
        register(words)
    } else if is(name, "lists") {
        lists(words)
    } else if is(name, "receive") {
        receive(words)
    } else if is(name, "lookup") {
        look_up(words)
    } else {
        Err(Malformed::Unknown)
    }
}

fn is(word: &[u8], text: &str) -> bool
    ensures { result ≡ bytes_eq word.now text.now }
{
    word == text.as_bytes()
}

// The number that the one word that is left writes.
fn one_number(mut words: Words<'_>) -> Result<usize, Malformed>
    ensures { result ≡ one_number (left words.entry) }
{
    let word = words.next()?;
    words.end()?;
    number(word)
}

fn register<'a>(mut words: Words<'a>) -> Result<Command<'a>, Malformed>
    ensures { told result ≡ register_of (left words.entry) }
{
    let kind = Kind::read(words.next()?)?;
    let slots = one_number(words)?;
    Ok(Command::Register { kind, slots })
}

fn lists<'a>(mut words: Words<'a>) -> Result<Command<'a>, Malformed>
    ensures { told result ≡ lists_of (left words.entry) }
{
    let kind = words.next()?;
    if is(kind, "shape") {
        words.end()?;
        Ok(Command::Shape)
    } else if is(kind, "rows") {
        let count = one_number(words)?;
        Ok(Command::Rows { count })
    } else {
        Err(Malformed::Unknown)
    }
}

fn receive<'a>(mut words: Words<'a>) -> Result<Command<'a>, Malformed>
    ensures { told result ≡ receive_of (left words.entry) }
{
    let sender = words.next()?;
    let day = words.next()?;
    let verdict_rows = words.next()?;
    let report_rows = words.next()?;
    let length = words.next()?;
    words.end()?;
    Ok(Command::Receive {
        sender,
        day,
        verdict_rows: number(verdict_rows)?,
        report_rows: number(report_rows)?,
        length: number(length)?,
    })
}

fn look_up<'a>(mut words: Words<'a>) -> Result<Command<'a>, Malformed>
    ensures { told result ≡ look_up_of (left words.entry) }
{
    let sender = words.next()?;
    let identifier = words.next()?;
    words.end()?;
    Ok(Command::LookUp { sender, identifier })
}
