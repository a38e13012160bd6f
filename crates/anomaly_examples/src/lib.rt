// Worked figures of the magnetic calls. Theorems alone: there is no code.
#![tactic(auto)]
