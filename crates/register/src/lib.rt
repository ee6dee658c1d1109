// What stands at the relay: keys and entries, and what every kind of register promises.
#![tactic(auto)]

pub mod entry;
pub mod key;
pub mod order;
pub mod refills;
pub mod register;
pub mod requests;
