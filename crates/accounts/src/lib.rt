// What is kept beside the tables of two parties (request R-14): 44 words, read, judged and written.
#![tactic(auto)]

pub mod judging;
pub mod reading;
pub mod writing;
