// Theorems over the definitions of crate versions: what a moved table keeps. No code; the theorems are in proofs/.
#![tactic(auto)]
