// The calendar: real days and moments, their order, and until when a visit may be corrected.
#![tactic(auto)]

pub mod day;
mod digits;
pub mod due;
pub mod moment;
mod month;
pub mod order;
pub mod texts;
