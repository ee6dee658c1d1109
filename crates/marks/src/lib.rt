// Sets in memory that does not grow: which IDs stood in a segment, and which numbers in the orders of a record.
#![tactic(auto)]

pub mod ids;
pub mod numbers;
