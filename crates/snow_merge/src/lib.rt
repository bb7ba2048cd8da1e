//! The pass: the merge of table A into C1, a quantum at a time. It writes a new run of both, folded key by key, and never reads a
//! page that it wrote. Whoever owns the table, the disk and the free-page map drives it.
#![tactic(auto)]

mod snow;

pub use snow::Snow;
