// The canonical tables: a run told in rounds, the records in one order, each answer with one justification. Definitions and laws, no code.
#![tactic(auto)]
