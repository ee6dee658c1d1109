// Code lists on tables of cases. The expected answers were worked out by hand, not by the code.
#![tactic(auto)]

#[cfg(test)]
mod questions;
#[cfg(test)]
mod refusals;
#[cfg(test)]
mod shapes;
