// What the answers of `read_obj` and `write_obj` mean, as plain statements. Laws alone: there is no code.
#![tactic(auto)]
