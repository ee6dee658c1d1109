// A table of entries that is kept in the order of their keys: keys of any type that has a total order, values of any type.
#![tactic(auto)]

mod search;
pub mod table;
