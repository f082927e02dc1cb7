// Table rules on what stands by itself: every value in its range, orders, names and parents, devices.
#![tactic(auto)]

pub mod devices;
pub mod parents;
pub mod ranges;
