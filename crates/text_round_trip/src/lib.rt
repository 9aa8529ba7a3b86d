// A pattern printed as text and read back is the same file: a theorem over what the contracts of
// `show_text::show` and `draft_text::make` cite; no code.
#![tactic(auto)]
