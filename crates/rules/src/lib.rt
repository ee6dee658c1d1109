// The rules for the fields of a record: which are broken, told by what the record says.
#![tactic(auto)]

pub mod codes;
pub mod needs;
pub mod orders;
pub mod places;
pub mod rules;
pub mod seen;
pub mod visits;
