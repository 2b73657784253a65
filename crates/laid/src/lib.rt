// What lowering lays down is an accepted graph: theorems alone, in specs/.
#![tactic(auto)]
