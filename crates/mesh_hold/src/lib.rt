// What holds of an imported mesh: theorems, no code.
#![tactic(auto)]
