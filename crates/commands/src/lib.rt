// The commands that a night's queue is made of, and the answers that are printed.
#![tactic(auto)]

pub mod command;
pub mod look_up_line;
pub mod malformed;
mod numbers;
pub mod rows;
mod texts;
pub mod verdicts_line;
mod words;
