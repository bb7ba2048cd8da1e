//! What the moves of the core are on an honest disk: the machine's own, over the lists of the tree that the file holds, and each image shows
//! the history. It has no functions: what is said of a core stands in `specs/`, and the lemmas of `proofs/` are for whoever tells what a
//! store shows.
#![tactic(auto)]
