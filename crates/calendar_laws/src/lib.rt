// Theorems over the calendar's meanings, in specs/.
#![tactic(auto)]
