// Two edits of one card: no code, only that the answers of planner and checker are what the plain words say.
#![tactic(auto)]
