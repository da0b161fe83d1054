// Checks of tables that may come from anybody: record counts over their room (40), records that are not right (42), words that are not 0.
#![tactic(auto)]

pub mod clear;
pub mod follow;
pub mod justified;
pub mod tables;
