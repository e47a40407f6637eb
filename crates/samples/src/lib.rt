//! Samples and the ring that keeps the last fifty of them.
#![tactic(auto)]

pub mod place;
pub mod ring;
pub mod sample;
pub mod signal;
