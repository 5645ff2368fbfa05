// The demands, as theorems over the contracts' definitions; no code.
#![tactic(auto)]
