//! The wire: a receiver that takes levels one pair at a time, and a rig that speaks to it over them.
#![tactic(auto)]

pub mod change;
pub mod receiver;
mod wire_rig;

pub use wire_rig::Wire;
