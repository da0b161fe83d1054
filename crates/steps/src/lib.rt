// States, step words, and the rules, goals and starts that are accepted.
#![tactic(auto)]

pub mod accept;
pub mod state;
pub mod word;
