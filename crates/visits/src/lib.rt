// Visits as a clinic writes them, line by line, and the due day of each.
#![tactic(auto)]

pub mod answer;
pub mod session;
pub mod tally;
pub mod visit;
