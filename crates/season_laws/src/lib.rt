// No code: the promises of the season's file, and the wrong programs that it shuts out.
#![tactic(auto)]
