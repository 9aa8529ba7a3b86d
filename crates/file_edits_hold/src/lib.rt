// The edits on files hold what the edits of patterns promise: theorems, no code.
#![tactic(auto)]
