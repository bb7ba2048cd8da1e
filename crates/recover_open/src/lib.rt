//! How a disk becomes a store, and how a store on a disk, which a crash may have left, becomes a core.
#![tactic(auto)]

mod beginning;
mod making;
mod opening;

pub use making::{NotMade, make_store};
pub use opening::{NotOpened, open_store};
pub use tree_reading::{Place, Report, Unreadable, check_store};
