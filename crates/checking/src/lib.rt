// The check of a memory of any length and contents: is it shaped for the limits, and do the tables that it shows meet the table rules? A
// function for each rule of document 01 (crates/ranging, crates/agreeing). Each is a pass over threads or messages; look-ups by name go by
// the places of names (crates/indexing).
#![tactic(auto)]

pub mod check;
pub mod rules_met;
#[cfg(test)]
mod tests;
