// Definitions alone. The code stands in the crates firing, machine and run.
#![tactic(auto)]
