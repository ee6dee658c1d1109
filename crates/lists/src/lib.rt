// Which codes are valid on a day: code lists behind one trait, by the shape of the codes or by rows.
#![tactic(auto)]

mod code;
pub mod code_lists;
mod listed_code;
mod order;
pub mod ordered_lists;
pub mod row;
pub mod shapes;
mod span;
