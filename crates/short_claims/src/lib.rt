// No code: the claims of the short stored form, as theorems over calls of `pack` and `unpack`, `write` and `read`.
#![tactic(auto)]
