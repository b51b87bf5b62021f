// Theorems over the definitions of crate rules: tables that differ in byte 7 alone, whose wait-for means the same, give the same steps and
// verdicts (document 02 (vi)). No code; the theorems are in proofs/.
#![tactic(auto)]
