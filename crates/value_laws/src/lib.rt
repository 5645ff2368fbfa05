// No code: the laws of the kinds of value, over the crates property_table and value_kinds.
#![tactic(auto)]
