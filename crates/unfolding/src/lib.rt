// The execution that an answer record's evidence unfolds to: definitions and laws, no code.
#![tactic(auto)]
