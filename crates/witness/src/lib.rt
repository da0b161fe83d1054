// What the product answers, in the terms of the model theory: definitions and laws, no code.
#![tactic(auto)]
