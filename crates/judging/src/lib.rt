// What the program judge does: from the bytes of its input to the line that it prints.
#![tactic(auto)]

pub mod input;
pub mod lines;
pub mod upload;
