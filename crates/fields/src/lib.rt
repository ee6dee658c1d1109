// What the format knows of the fields of a record, whatever a record holds: their names, where each stands and how its value is
// written; the categories and the actions; what a record of each category needs.
#![tactic(auto)]

pub mod action;
pub mod category;
pub mod excused;
pub mod field;
pub mod form;
pub mod need;
