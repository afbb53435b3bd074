// What every layer shares: the bounds of a group, lists kept inline, sets of servers, and the numbered refusals.
#![tactic(auto)]

pub mod bounded;
pub mod limits;
pub mod refusal;
pub mod servers;
