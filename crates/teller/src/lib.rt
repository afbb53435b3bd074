// A server together with the fact that whatever it may tell other servers fits into a message.
#![tactic(auto)]

pub mod teller;
pub mod values;
