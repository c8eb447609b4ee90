// The promises stand in specs/: theorems over the definitions of the rules.
#![tactic(auto)]
