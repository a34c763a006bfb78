// The three demands, as theorems over the meanings, stand in specs/.
#![tactic(auto)]
