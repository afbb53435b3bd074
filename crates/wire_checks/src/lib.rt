// Tests of messages, of their bytes and of carriers: every fault with its place, every bound from both sides.
#![tactic(auto)]

#[cfg(test)]
mod lanes;
#[cfg(test)]
mod layout;
#[cfg(test)]
mod padding;
#[cfg(test)]
mod reading;
#[cfg(test)]
mod samples;
#[cfg(test)]
mod writing;
