// The reads of one server, how they are answered, and numbers of servers, objects and reads that are known to be in bounds.
#![tactic(auto)]

pub mod numbers;
pub mod reads;
pub mod ways;
