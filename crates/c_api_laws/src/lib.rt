// No code: that each function for C has one answer, what it makes of marks, and the wrong covers that are shut out.
#![tactic(auto)]
