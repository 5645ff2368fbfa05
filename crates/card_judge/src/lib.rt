// Cards: the judgement of one logical line within its card.
#![tactic(auto)]

pub mod judge;
