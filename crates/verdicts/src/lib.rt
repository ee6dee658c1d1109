// The faults of a record: each rule of the first three tiers at each segment, told in their order.
#![tactic(auto)]

pub mod judge;
pub mod parts;
pub mod sights;
pub mod strikes;
pub mod walk;
