// The records of a lawful upload, read in place: iterators over records, orders and fields, which cannot fail.
#![tactic(auto)]

pub mod begin;
pub mod fields;
pub mod orders;
pub mod part;
pub mod passing;
