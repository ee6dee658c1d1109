// A register whose entries stand in slots that a hash of the key finds.
#![tactic(auto)]

mod home;
mod slots;
pub mod store;
mod walks;
