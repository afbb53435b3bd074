// What each call makes of one server: its answer, the server after it, and what it tells other servers.
#![tactic(auto)]

pub mod asking;
pub mod encoding;
pub mod reading;
pub mod shares;
pub mod turns;
pub mod within;
