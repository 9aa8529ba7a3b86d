// What holds of the scheduler over any sequence of events. Definitions and theorems; no code.
#![tactic(auto)]
