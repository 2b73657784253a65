// The structure of tables that pass: theorems alone, in specs/.
#![tactic(auto)]
