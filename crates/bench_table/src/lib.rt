// The bench table of document 01, P1 to P11: specs and one proof, no code.
#![tactic(auto)]
