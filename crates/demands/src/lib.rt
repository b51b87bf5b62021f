// Theorems over the definitions of crate rules: what follows from the rules of documents 01 and 02. No code; the theorems are in proofs/.
#![tactic(auto)]
