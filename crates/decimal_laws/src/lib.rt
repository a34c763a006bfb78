// The laws of decimal days. No code: specs/ holds the statements and their proofs.
#![tactic(auto)]
