// The group: servers that share objects, laid out over a code, and what they keep, looked up.
#![tactic(auto)]

pub mod group;
