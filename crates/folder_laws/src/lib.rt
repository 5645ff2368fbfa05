// The laws of folding: no code, the theorems stand in proofs/.
#![tactic(auto)]
