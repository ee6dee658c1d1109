// The relay's call on tables of uploads. The expected answers were worked out from the format by hand, not by the code.
#![tactic(auto)]

#[cfg(test)]
mod bounds;
#[cfg(test)]
mod calls;
#[cfg(test)]
mod characters;
#[cfg(test)]
mod fields;
#[cfg(test)]
mod files;
#[cfg(test)]
mod numbers;
#[cfg(test)]
mod senders;
#[cfg(test)]
mod small;
#[cfg(test)]
mod standings;
