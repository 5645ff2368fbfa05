// What a label stands for, by RFC 6350 and RFC 6868: the relation in plain words, and its laws. No code.
#![tactic(auto)]
