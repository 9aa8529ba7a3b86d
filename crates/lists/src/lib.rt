// Definitions on lists and their laws; no code.
#![tactic(auto)]
