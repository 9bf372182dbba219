// No code: the definition of an instruction, and what it keeps.
#![tactic(auto)]
