// The register's proved cases stand in specs/. Other cases are run by a program.
#![tactic(auto)]
