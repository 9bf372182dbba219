// No code: what is claimed of a host's calls with images, and its proofs.
#![tactic(auto)]
