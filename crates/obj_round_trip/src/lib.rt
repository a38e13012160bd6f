// That a mesh written and read is the same mesh. Laws alone: there is no code.
#![tactic(auto)]
