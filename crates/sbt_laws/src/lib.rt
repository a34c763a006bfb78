// No code: the promises of the SBT correlation, its marked cases, and the wrong programs that it shuts out.
#![tactic(auto)]
