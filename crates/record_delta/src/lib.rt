//! Records: what a table keeps of the writes of a key. A base is a value, a delta an amount to add to what is older, a
//! tombstone a removal. A newer record is folded over an older one, and what is left in the end is settled as a value.
//! The memory table, the log and the sorted runs use it. Its words on lists of keys and records are theirs and the merges'.
#![tactic(auto)]

mod folding;
mod kinds;
mod record;
mod stream;

pub use folding::{fold, fold_over, fold_writes, settle};
pub use kinds::{AddPart, Both, Fold, OfCount, OfText, TailPart};
pub use record::{Rec, weight};
pub use stream::Stream;
