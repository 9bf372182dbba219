// No code: the plain machine, over any definition of an instruction.
#![tactic(auto)]
