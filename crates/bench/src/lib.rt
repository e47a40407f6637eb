//! Bench examples: a part is driven and read as on a bench, and shows what the rules give.
#![tactic(auto)]

#[cfg(test)]
mod tests;
