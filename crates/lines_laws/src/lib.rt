// The theorems of the Envisat texts stand in specs/.
#![tactic(auto)]
