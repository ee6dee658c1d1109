// Answering a stream of lines, however long it is and whatever it holds.
ghost use Rattle.std.specs.Prelude.{ℕ, ◌≤◌, List, [], ◌∷◌, ◌++◌, IfOk, vec_len, vec_capacity};
ghost use Rattle.std.specs.Option.{option_to_list};
ghost use Rattle.visits.specs.Answers.{Answer};

use crate::answer::{Answer, answer_to};
use crate::tally::Tally;
use std::alloc::{AllocError, Global};

// How much is kept of a line: one byte more than a visit and a carriage return have at most, so that a longer line shows.
const KEPT: usize = 15;

// The state between two bytes of the stream.
#[derive(Drop)]
pub struct Session {
    line: Vec<u8>,
    tally: Tally,
    ghost few: { vec_len line ≤ 15 },
    ghost room: { 15 ≤ vec_capacity line },
}

impl Session {
    ghost use Rattle.visits.specs.Sessions.{Ended, WentOn, Fed, Told, Complete};

    // A session that has read nothing.
    pub fn new(alloc: Global) -> Result<Session, AllocError>
        ensures { IfOk result (λ s. Told [] [] s) }
    {
        Ok(Session {
            line: Vec::with_capacity(alloc, KEPT)?,
            tally: Tally::new(),
        })
    }

    // The next byte: it ends a line, which is then answered, or goes on with one.
    #[tactic(auto, using(crate::proofs::Streams::told_on, crate::proofs::Streams::told_end))]
    pub fn feed(&mut self, byte: u8) -> Option<Answer>
        ensures step { Fed self.old byte result self.new }
        ensures law { (bs : List ℕ) (given : List Answer) → Told bs given self.old → Told (bs ++ byte ∷ []) (given ++ option_to_list result) self.new }
    {
        if byte == b'\n' {
            return Some(self.end_line());
        }
        self.go_on(byte);
        None
    }

    // The end of the bytes: a line that has begun and not ended is answered too. The tally is that of all the lines.
    pub fn finish(mut self) -> (Option<Answer>, Tally)
        ensures { (bs : List ℕ) (given : List Answer) → Told bs given self → Complete bs (given ++ option_to_list result.0) result.1 }
    {
        if self.line.is_empty() {
            return (None, self.tally);
        }
        let last = self.end_line();
        (Some(last), self.tally)
    }

    fn end_line(&mut self) -> Answer
        ensures { Ended self.old result self.new }
    {
        let answer = answer_to(&self.line);
        self.line.clear();
        self.tally.note(answer);
        answer
    }

    #[tactic(auto, using(crate::proofs::Streams::kept_full))]
    fn go_on(&mut self, byte: u8)
        ensures { WentOn self.old byte self.new }
    {
        if self.line.len() < KEPT {
            self.line.push_reserved(byte);
        }
    }
}
