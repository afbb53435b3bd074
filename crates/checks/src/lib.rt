// Tests of the crates below, on examples and at the edges of every bound.
#![tactic(auto)]

#[cfg(test)]
mod cells;
#[cfg(test)]
mod codes;
#[cfg(test)]
mod fields;
#[cfg(test)]
mod recovery;
#[cfg(test)]
mod refusals;
