// Another pass over a lawful upload: how many records it holds, where it is beyond a limit, and where it names another
// sender.
#![tactic(auto)]

pub mod laws;
pub mod survey;
pub mod tally;
