// No code: what is claimed of images, and its proofs.
#![tactic(auto)]
