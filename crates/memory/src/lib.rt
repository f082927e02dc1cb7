// One lent memory of plain numbers, changed in place. What stands where is in specs/Layout.antt; only this crate knows it.
// That the memory has room for its limits (Roomy) is a clause of each function: the words are lent by a board, as a slice of any contents.
// Tried: a struct around the slice with Roomy as its invariant proves. But who lends the words learns what they hold only where each function
// that takes the struct also promises that it holds the same reference, a clause more in place of the one that goes.
#![tactic(auto)]

pub mod memory;
pub mod records;
