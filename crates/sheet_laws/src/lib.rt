// Laws of the sheet. Definitions and laws alone: there is no code.
#![tactic(auto)]
