// Receiving: an upload is taken or goes back, its records are judged one after the other, and those in order change the register.
#![tactic(auto)]

pub mod input;
pub mod judge;
pub mod look_up;
pub mod receive;
pub mod samples;
