// No code: the demands and the starred examples, as theorems over the definitions that the contracts cite.
#![tactic(auto)]
