//! The deep merge: the merge of C1' into C2, a quantum at a time. It writes a new run of both, folded key by key and settled: bases only,
//! and nothing of a key whose newest record is a tombstone. Whoever owns the disk and the free-page map drives it.
#![tactic(auto)]

mod deep;

pub use deep::Deep;
