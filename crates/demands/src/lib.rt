// The demands on the archive, stated over its log in specs/ and proved in proofs/; holds no code.

#![tactic(auto)]
