//! Histories of rigs, from their start and over every call tried on them. There is no code: what they are, and the
//! six points that are said of them, stands in specs/.
#![tactic(auto)]
