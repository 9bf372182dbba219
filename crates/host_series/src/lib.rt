// No code: a host's calls of any kind of machine are the series that demand 3 is about.
#![tactic(auto)]
