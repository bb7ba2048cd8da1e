//! A session over the store on a disk: the lines of a source are done as they come, each is told before the source is asked for more, and the disk
//! comes back with what there is to tell of its end. The top call may use it.
#![tactic(auto)]

mod closing;
mod laws;
mod next;
mod room;
mod serve;
mod session;

pub use closing::{Closing, print_closing};
pub use laws::plain_session;
pub use room::share;
pub use serve::{Served, serve_over};
