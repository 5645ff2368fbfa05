// The morning report: no code, only what holds of the counts over every list of judgements.
#![tactic(auto)]
