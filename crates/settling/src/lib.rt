// What a record that breaks no other rule may do to the register: rules 30 to 35, which look at what stands there.
#![tactic(auto)]

pub mod against;
pub mod settle;
