// The cells of a record: where in the upload the value of each field stands. They take no more memory as the record grows.
#![tactic(auto)]

pub mod cells;
pub mod fill;
