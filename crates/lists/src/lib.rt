// Lists of numbers: counts and permutations, lists that ascend by a key, the pigeonhole. Definitions and laws alone: there is no code.
#![tactic(auto)]
