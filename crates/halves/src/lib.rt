// A goal cut in two (request R-11): definitions and laws, no code.
#![tactic(auto)]
