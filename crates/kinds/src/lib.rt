// One type for registers of any kind, and one for code lists of any kind, for who picks the kind as it runs.
#![tactic(auto)]

pub mod any_lists;
pub mod any_register;
