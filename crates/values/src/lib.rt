// What the values of fields may be, one or two at a time, whatever else a record says.
#![tactic(auto)]

pub mod codes;
pub mod numbers;
pub mod orders;
pub mod visits;
