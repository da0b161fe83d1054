// Laws across operations: what one of them leaves, as another takes it. No code.
#![tactic(auto)]
