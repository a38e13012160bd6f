// That the value of a decimal number is the nearest double. Definitions and laws alone: there is no code.
#![tactic(auto)]
