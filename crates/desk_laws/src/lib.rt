// Demand 3: no code, only what holds of the desk over every list of calls.
#![tactic(auto)]
