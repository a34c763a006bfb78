// No code: the promises of SIRAL's runs, and the wrong programs that they shut out.
#![tactic(auto)]
