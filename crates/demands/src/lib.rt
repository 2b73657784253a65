// The third demand over the entries, call by call: theorems alone, in specs/.
#![tactic(auto)]
