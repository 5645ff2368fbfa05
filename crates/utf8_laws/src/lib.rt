// UTF-8 by RFC 3629's grammar: no code, only laws that tie the length of a character and the first bad octet to it.
#![tactic(auto)]
