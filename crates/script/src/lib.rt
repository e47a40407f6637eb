//! Lines of a script: the command that a line says, or the first column where it is wrong.
//! The first line of a script says the hold-off, and has a form of its own.
#![tactic(auto)]

mod class;
pub mod command;
pub mod first;
mod kind;
pub mod line;
pub mod reader;
mod rest;

pub use command::Command;
