// The theory of the search: why walks that end leave nothing out, and closed tables hold exactly a run's calls and answers. Laws, no code.
#![tactic(auto)]
