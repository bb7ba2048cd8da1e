//! Disks and a shelf in memory, whose calls can be made to fail, whose bytes somebody else can change, and whose crash images can
//! be opened: the forms of `disk_trait` that tell what they hold.
//! Tests use them for every fault and every crash, and programs in place of a file.
#![tactic(auto)]

mod bytes;
mod call;
mod disk;
mod faultless;
mod image;
mod poke;
mod recorder;
mod shelf;
mod stock;

pub use disk::MemDisk;
pub use faultless::FaultlessDisk;
pub use shelf::MemShelf;
