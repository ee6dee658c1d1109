// What a record files with the register, read off its fields.
#![tactic(auto)]

pub mod filing;
pub mod reading;
