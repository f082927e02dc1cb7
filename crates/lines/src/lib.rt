// What the programs print: numbers, the line of a decision, the last line, tables.
#![tactic(auto, unfolding(store::specs::Store::Shaped, store::specs::Store::tables))]

pub mod decimal;
pub mod last;
pub mod line;
pub mod tables;
