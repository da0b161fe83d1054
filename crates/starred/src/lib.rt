// The starred drills, proved of the logic: definitions and laws, no code.
#![tactic(auto)]
