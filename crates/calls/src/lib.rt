// The calls on a group, beside any carrier. Each takes its step of the rules, and what it finds there is what the rules allow.
#![tactic(auto)]

pub mod apply;
mod own_write;
mod post;
mod reach;
pub mod sweep;
mod tell;
mod values;
pub mod write;
