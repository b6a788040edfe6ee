// The P cases of document 01, computed on the definitions of `model`; holds no code.

#![tactic(auto)]
