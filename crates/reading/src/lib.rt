// The plain reading of a table is a definition: specs/ holds all of this crate.
#![tactic(auto)]
