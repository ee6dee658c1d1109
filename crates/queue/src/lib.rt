// A night's queue: one register and the code lists in use, and what the commands do to them.
#![tactic(auto)]

pub mod queue;
