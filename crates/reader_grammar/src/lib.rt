// No code: what a card and an input of cards are, and the laws that the reader accepts and refuses exactly by them.
#![tactic(auto)]
