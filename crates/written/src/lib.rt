// What lowering writes, by number: theorems alone, in specs/.
#![tactic(auto)]
