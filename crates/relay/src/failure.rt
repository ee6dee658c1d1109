// Why a command is not done.
use commands::malformed::Malformed;
use std::alloc::{AllocError, AllocFailed};
use std::error::Error;
use std::{fmt, io};

// It is told, and the queue goes on.
#[derive(Clone, Copy, PartialEq, Eq, Debug)]
pub(crate) enum Failure {
    Malformed(Malformed),
    LongLine,
    TooManyRows,
    Memory,
    NoLineFeed,
    // the input ends where an upload and its line feed, or the rows of code lists, go on
    EndsInUpload,
    EndsInRows,
}

impl fmt::Display for Failure {
    fn fmt<W: fmt::Write>(&self, f: &mut fmt::Formatter<W>) -> fmt::Result {
        match self {
            Failure::Malformed(malformed) => write!(f, "{malformed}"),
            Failure::LongLine => write!(f, "the line is too long"),
            Failure::TooManyRows => write!(f, "too many rows"),
            Failure::Memory => write!(f, "no memory"),
            Failure::NoLineFeed => write!(f, "no line feed behind the upload"),
            Failure::EndsInUpload => write!(f, "the input ends inside an upload"),
            Failure::EndsInRows => write!(f, "the input ends inside the rows"),
        }
    }
}

impl Error for Failure {}

impl From<Malformed> for Failure {
    fn from(malformed: Malformed) -> Failure {
        Failure::Malformed(malformed)
    }
}

impl From<AllocError> for Failure {
    fn from(_error: AllocError) -> Failure {
        Failure::Memory
    }
}

impl<T: Drop> From<AllocFailed<T>> for Failure {
    fn from(_error: AllocFailed<T>) -> Failure {
        Failure::Memory
    }
}

// Or the input cannot be read, or the output cannot be written, and the program stops.
#[derive(Drop)]
pub(crate) enum Trouble {
    Told(Failure),
    Io(io::Error),
}

impl From<Failure> for Trouble {
    fn from(failure: Failure) -> Trouble {
        Trouble::Told(failure)
    }
}

impl From<AllocError> for Trouble {
    fn from(error: AllocError) -> Trouble {
        Trouble::Told(error.into())
    }
}

impl From<io::Error> for Trouble {
    fn from(error: io::Error) -> Trouble {
        Trouble::Io(error)
    }
}
