// The messages between servers, and the tags of writes.
#![tactic(auto)]

pub mod kinds;
pub mod ranges;
pub mod tag;
