// Text by its five escapes: no code, only laws that tie escaping and unescaping to them and to each other.
#![tactic(auto)]
