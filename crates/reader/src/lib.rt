// The first pass over an upload: it reads tokens, and tells where and why an unlawful one breaks off.
#![tactic(auto)]

mod classes;
pub mod faults;
mod misplaced;
mod place;
mod reader;
mod scans;
pub mod stations;
pub mod structure;
mod tokens;
