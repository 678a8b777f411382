// The definitions of the bench, over the types of `records`. There is no code here: they stand in specs/.
#![tactic(auto)]
