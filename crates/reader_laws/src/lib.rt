// The laws of the reader: no code, the theorems stand in proofs/.
#![tactic(auto)]
