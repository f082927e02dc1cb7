// The places of names, which a table check finds once and looks names up in, and the index: the same where each name comes once.
#![tactic(auto)]

pub mod index;
