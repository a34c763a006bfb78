// No code: the theorems of the leap list and of the scale changes, and the wrong programs that they shut out.
#![tactic(auto)]
