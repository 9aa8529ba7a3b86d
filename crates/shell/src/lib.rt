// The shell (the Rust's shell.rs): so far its definitions and the theorem of the openings.
#![tactic(auto)]
