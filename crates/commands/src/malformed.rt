// Why a line is no command.
ghost use Rattle.std.specs.Prelude.{Some};
ghost use Rattle.commands.specs.Malformed.{malformed_text};

use std::error::Error;
use std::fmt;

#[derive(Clone, Copy, PartialEq, Eq, Debug)]
pub enum Malformed {
    // it names none
    Unknown,
    // it has not just the words that are asked for, with a single blank between two
    Words,
    // a word is no number where one is asked for, or too large a one
    Number,
}

impl fmt::Display for Malformed {
    ghost output = { λ m. Some (malformed_text m) };

    fn fmt<W: fmt::Write>(&self, f: &mut fmt::Formatter<W>) -> fmt::Result {
        match self {
            Malformed::Unknown => write!(f, "unknown command"),
            Malformed::Words => write!(f, "wrong number of words or blanks"),
            Malformed::Number => write!(f, "no number"),
        }
    }
}

impl Error for Malformed {}
