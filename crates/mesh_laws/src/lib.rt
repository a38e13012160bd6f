// Laws of `check_mesh`. Definitions and laws alone: there is no code.
#![tactic(auto)]
