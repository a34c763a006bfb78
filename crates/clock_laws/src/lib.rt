// No code: the promises of any correlated counter, SBT's and GOCE's, and the parts of wrong desks over it.
#![tactic(auto)]
