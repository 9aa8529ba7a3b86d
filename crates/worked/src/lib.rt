// The pieces worked by hand (docs/FORMAT.md 3.9): specs/Table.antt; that they are right: proofs/Table.antt.
#![tactic(auto)]
