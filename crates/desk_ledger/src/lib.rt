// The plain ledger, the calls of one upload, and a desk with its pool under a list of calls: no code, only definitions and worked examples.
#![tactic(auto)]
