// The model theory of Transaction Logic, and that deductions are sound and complete for it: definitions and laws, no code.
#![tactic(auto)]
