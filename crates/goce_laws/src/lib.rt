// No code: the promises of GOCE's correlation, and the wrong programs that it shuts out.
#![tactic(auto)]
