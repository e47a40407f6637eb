//! The part's pins and address, the names of its registers and their bits, the tables of writable bits and reset bytes, and the settings.
#![tactic(auto)]

pub mod bits;
pub mod causes;
pub mod pins;
pub mod register;
pub mod settings;
pub mod straps;
pub mod table;
