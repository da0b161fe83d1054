// Two parties on one pair of tables (request R-14): definitions and laws, no code.
#![tactic(auto)]
