// Reading and writing undo each other: theorems over what the contracts of `store_read::read` and
// `store_write::write` cite; no code.
#![tactic(auto)]
