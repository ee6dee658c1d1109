// What programs that try registers share: dice that always fall the same, and keys and entries by them.
#![tactic(auto)]

pub mod dice;
pub mod draws;
