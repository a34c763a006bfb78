// No code: the paper's marked cases, computed of the meanings.
#![tactic(auto)]
