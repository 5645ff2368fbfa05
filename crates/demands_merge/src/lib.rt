// The worked examples of two edits of one card: no code, only what planner and checker answer for them.
#![tactic(auto)]
