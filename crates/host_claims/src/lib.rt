// No code: a host's calls of `mb_raw_run` and `mb_raw_step` are the series that demand 3 is about.
#![tactic(auto)]
