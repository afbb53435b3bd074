// One server: what it keeps, and the questions and changes that the calls on a group are made of.
#![tactic(auto)]

pub mod server;
