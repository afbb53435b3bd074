// Messages as bytes: XDR, in one record of one fragment.
#![tactic(auto)]

mod body;
mod cursor;
pub mod faults;
mod item;
pub mod kind;
mod mark;
pub mod read;
pub mod write;
