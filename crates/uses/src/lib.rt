// Theorems alone: nothing here is run.
#![tactic(auto)]
