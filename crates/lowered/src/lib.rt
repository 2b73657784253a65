// Lowering: definitions and theorems alone, in specs/.
#![tactic(auto)]
