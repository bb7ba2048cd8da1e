//! What the core of a tree keeps by numbers alone, on any disk: its moves are the pacing's. It has no functions: what is said of a core
//! stands in `specs/`, and the lemmas of `proofs/` are for whoever owns it.
#![tactic(auto)]
