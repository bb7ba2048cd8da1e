//! A deep merge that may be taken up again.

use merge_ends::Finished;
use page_file::no_component;
use refusal::NoMemory;
use run_cursor::Cursor;
use std::alloc::Global;

/// A cursor over C1' and one over C2. With their pages they are some 9 KB, so they go from call to call in a box.
#[derive(Debug, Drop)]
pub struct Cursors {
    /// The one over C1'.
    pub c1x: Cursor,
    /// The one over C2.
    pub c2: Cursor,
}

impl Cursors {
    /// Takes the memory for both, which are over no component yet, or tells that it was refused.
    ///
    /// It stays a call, so that the cursors aren't added to the frame of who reserves them.
    #[inline(never)]
    pub fn reserve(alloc: Global) -> Result<Box<Cursors>, NoMemory> {
        Ok(Box::new(
            alloc,
            Cursors {
                c1x: Cursor::start(&no_component()),
                c2: Cursor::start(&no_component()),
            },
        )?)
    }
}

/// What was finished of a deep merge, and the cursors over C1' and C2 with which it goes on behind that.
#[derive(Debug, Drop)]
pub struct Resumable {
    /// The finished pages, and how much of both was left, in bytes, above the greatest key that was taken.
    pub done: Finished,
    /// Each is at its component's first entry above that key, or at its end.
    pub inputs: Box<Cursors>,
}
