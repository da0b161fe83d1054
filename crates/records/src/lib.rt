// The one room for records: their words, and the bodies that they name.
#![tactic(auto)]

pub mod bodies;
pub mod tables;
