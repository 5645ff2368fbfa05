// The laws of lines in a style: by parts as octet by octet, the same rows and kinds, and cards stay cards.
#![tactic(auto)]
