// The edits of a shell: definitions, and what holds of every edit. No code.
#![tactic(auto)]
