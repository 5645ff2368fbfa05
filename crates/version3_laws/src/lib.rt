// What cards of version 3 say, and which cards are taken in and given out: the relations in plain words, and their laws. No code.
#![tactic(auto)]
