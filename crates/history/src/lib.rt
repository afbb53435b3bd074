// The history of one server.
#![tactic(auto)]

pub mod history;
