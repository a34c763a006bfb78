// No code: examples of the ground floor's meanings, and the wrong programs that they shut out.
#![tactic(auto)]
