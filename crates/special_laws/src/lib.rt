// Laws of Carlson's integrals, of ln, atan and atan2 by R_C, and of the complete elliptic integrals: how many rounds their loops take, that the inner calls are the
// Rust's recursions and loops, and worked examples. Definitions and laws alone: there is no code.
#![tactic(auto)]
