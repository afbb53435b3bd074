// What carries messages between servers: lanes over memory that the caller brings, as records or as bytes.
#![tactic(auto)]

pub mod blocks;
pub mod lanes;
pub mod parcel;
pub mod place;
