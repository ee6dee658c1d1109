// A second pass over a lawful upload: it reads one piece after another, and cannot fail.
#![tactic(auto)]

pub mod cursor;
mod scan;
