// A register that keeps its entries in the order of their keys.
#![tactic(auto)]

mod methods;
pub mod store;
mod walks;
