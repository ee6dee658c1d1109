// The relay's call: an upload is taken, or goes back whole with number, cause and place.
#![tactic(auto)]

pub mod calls;
pub mod checks;
pub mod opening;
pub mod upload;
