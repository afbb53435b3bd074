// What a server does with a message: it keeps a notice, replies to a question, and makes a read of a reply.
#![tactic(auto)]

pub mod delivering;
pub mod fitting;
pub mod mending;
pub mod receiving;
pub mod replying;
pub mod seats;
pub mod settling;
pub mod turns;
