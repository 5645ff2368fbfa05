// The reader that takes chunks: no code, only what holds of every cutting of an input.
#![tactic(auto)]
