// No code: what is claimed of a whole series of calls, over any machine.
#![tactic(auto)]
