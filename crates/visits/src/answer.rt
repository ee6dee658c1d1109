// What is answered to a line, and how that is written.
ghost use Rattle.std.specs.Prelude.{◌≡◌, Some, Ok, Err};
ghost use Rattle.visits.specs.Answers.{Answers, reply_to, wording};
ghost use Rattle.visits.specs.Lines.{text};

use crate::visit::Visit;
use calendar::day::Day;
use std::error::Error;
use std::fmt;

// The visit that a line writes, and its due day.
#[derive(Clone, Copy, PartialEq, Eq, Debug)]
pub struct Due {
    pub visit: Visit,
    pub due: Day,
}

// The line writes no visit.
#[derive(Clone, Copy, PartialEq, Eq, Debug)]
pub struct NoDay;

pub type Answer = Result<Due, NoDay>;

// The due day of the visit that the line writes, or that it writes none.
pub fn answer_to(line: &[u8]) -> Answer
    ensures value { wording result ≡ reply_to line.now }
    ensures law { Answers line.now result }
{
    let visit = Visit::read(trimmed(line)).ok_or(NoDay)?;
    Ok(Due {
        visit,
        due: visit.due(),
    })
}

// The line without the carriage return that may stand at its end.
fn trimmed(line: &[u8]) -> &[u8]
    ensures { result.now ≡ text line.now }
{
    match line {
        [front @ .., b'\r'] => front,
        _ => line,
    }
}

impl fmt::Display for Due {
    ghost output = { λ d. Some (wording (Ok d)) };

    fn fmt<W: fmt::Write>(&self, f: &mut fmt::Formatter<W>) -> fmt::Result {
        let Due { visit, due } = self;
        write!(f, "{visit} {due}")
    }
}

impl fmt::Display for NoDay {
    ghost output = { λ n. Some (wording (Err n)) };

    fn fmt<W: fmt::Write>(&self, f: &mut fmt::Formatter<W>) -> fmt::Result {
        write!(f, "no day")
    }
}

impl Error for NoDay {}

// An answer as it is printed, whichever of the two it is. A type of its own, since a `Result` can be given no `Display` here.
#[derive(Clone, Copy)]
pub struct Line(pub Answer);

impl fmt::Display for Line {
    ghost output = { λ line. Some (wording line.0) };

    fn fmt<W: fmt::Write>(&self, f: &mut fmt::Formatter<W>) -> fmt::Result {
        match self.0 {
            Ok(due) => write!(f, "{due}"),
            Err(no_day) => write!(f, "{no_day}"),
        }
    }
}
