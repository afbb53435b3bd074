// Elimination over a field: whether the rows of a matrix determine an unknown, and by which factors they add up to it.
#![tactic(auto)]

mod elimination;
pub mod solving;
