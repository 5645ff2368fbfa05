// The faults of a line, and raw lines and logical lines in plain words: no code, only laws.
#![tactic(auto)]
