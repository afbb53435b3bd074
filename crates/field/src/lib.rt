// Finite fields whose elements are the numbers below a size of at most 256: the interface with its laws, and two fields.
#![tactic(auto)]

pub mod gf256;
pub mod interface;
pub mod mod251;
mod tables;
