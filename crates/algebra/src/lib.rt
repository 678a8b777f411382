// Sums over a range, a ring solver, orders, bounds of signed arithmetic, and what a lent buffer holds. Definitions and laws only.
#![tactic(auto)]
