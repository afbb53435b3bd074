// The writes of other servers that wait at one server.
#![tactic(auto)]

pub mod waiting;
