// Two edits of one card in plain words: PIDs, sources and rows, and the laws of what reading a card leaves.
#![tactic(auto)]
