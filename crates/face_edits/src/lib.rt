// The edits of a face: definitions, and what holds of every edit. No code.
#![tactic(auto)]
