// Records judged by code lists of rows, on a table of cases that were worked out by hand. By the lists of shapes the samples of
// the program judge do the same.
#![tactic(auto)]

#[cfg(test)]
mod listed;
