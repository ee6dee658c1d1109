// What is told of a record that is not in order: the rules, faults, and the report that they go to.
#![tactic(auto)]

pub mod report;
pub mod rules;
