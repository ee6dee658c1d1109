// The lawful uploads as a language: bytes, tags, and the states between tags.
#![tactic(auto)]

pub mod ahead;
pub mod bytes;
pub mod lawful;
pub mod laws;
pub mod states;
pub mod tags;
