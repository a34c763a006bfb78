// No code: what shuts a wrong program out, for the crates of laws.
#![tactic(auto)]
