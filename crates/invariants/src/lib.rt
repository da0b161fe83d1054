// What the loops of a walk and of the rounds keep, over the words lent: laws, no code.
#![tactic(auto)]
