//! A cursor, and the part of its component in which it stands.
ghost use Rattle.std.specs.Prelude.{◌≡◌, ◌⊎◌, [], ℕ, List, Some, true};
ghost use Rattle.blsm_model.specs.Components.{empty_component};
ghost use Rattle.blsm_model.specs.Sizes.{Sizes};
ghost use Rattle.record_delta.specs.Entries.{Entries};
ghost use Rattle.page_file.specs.Component.{HasList};
ghost use Rattle.run_cursor.specs.Cursor.{started, started_front, HasAhead, HasAheadTo, HasFront};
ghost use Rattle.run_cursor.specs.Given.{HasGiven, HasGivenOf};
ghost use Rattle.run_cursor.specs.Part.{IsNextPart};
ghost use Rattle.run_cursor.specs.Walk.{IsWalk};

use crate::Cursor;
use blsm_model::{Component, Geometry};

/// A cursor over a component, and the part of the component in which it stands: what is there from the page of its head on. Who stops at
/// an entry goes on from there later, by a cursor over that part, which reads no page before it.
#[derive(Debug, Drop)]
pub struct Walk {
    pub cursor: Cursor,
    pub here: Component,
}

impl Walk {
    /// A walk before the first entry of a component, of which all is ahead. It calls no device.
    pub fn start(run: &Component) -> Walk
        requires { run.now.pages ≡ 0 → run.now ≡ empty_component }
        ensures cursor { result.cursor ≡ started run.now }
        ensures here { result.here ≡ run.now }
        ensures walk { IsWalk result }
        ensures list { (sizes : Sizes) (entries : Entries) (file : List ℕ) → (list : HasList sizes run.now entries file)
            → (ahead : HasAhead sizes result.cursor entries file) × (ahead.coming ≡ list.pages) }
        ensures given { (sizes : Sizes) (file : List ℕ) → HasGiven sizes run.now result.cursor [] file }
    {
        Walk {
            cursor: Cursor::start(run),
            here: *run,
        }
    }

    /// A walk before the first entry of a front, of which all is ahead. It calls no device.
    pub fn start_front(front: &Component) -> Walk
        requires { front.now.pages ≡ 0 → front.now ≡ empty_component }
        ensures cursor { result.cursor ≡ started_front front.now }
        ensures here { result.here ≡ front.now }
        ensures walk { IsWalk result }
        ensures list { (sizes : Sizes) (end : ℕ) (entries : Entries) (file : List ℕ) → (list : HasFront sizes front.now end entries file)
            → (ahead : HasAheadTo (Some end) sizes result.cursor entries file) × (ahead.coming ≡ list.pages) }
        ensures given { (sizes : Sizes) (file : List ℕ) → HasGivenOf true sizes front.now result.cursor [] file }
    {
        Walk {
            cursor: Cursor::start_front(front),
            here: *front,
        }
    }

    /// Goes before the first entry of a component, whatever it was over. It calls no device, and moves no page.
    pub fn restart(&mut self, run: &Component)
        requires { run.now.pages ≡ 0 → run.now ≡ empty_component }
        ensures cursor { self.new.cursor ≡ started run.now }
        ensures here { self.new.here ≡ run.now }
        ensures walk { IsWalk self.new }
        ensures list { (sizes : Sizes) (entries : Entries) (file : List ℕ) → (list : HasList sizes run.now entries file)
            → (ahead : HasAhead sizes self.new.cursor entries file) × (ahead.coming ≡ list.pages) }
        ensures given { (sizes : Sizes) (file : List ℕ) → HasGiven sizes run.now self.new.cursor [] file }
    {
        self.cursor.restart(run);
        self.here = *run;
    }

    /// The part in which the entry stands that comes after the cursor's head: from the page on that `advance` reads next, where it reads one
    /// then; else the one before. It calls no device.
    pub fn next_part(&self, geo: &Geometry) -> Component
        ensures part { IsNextPart self.now.cursor self.now.here result }
        // A part that begins at another page reads as the entries that the cursor has ahead.
        ensures list { (rest : Entries) (file : List ℕ) → (ahead : HasAhead geo.now self.now.cursor rest file)
            → ((list : HasList geo.now result rest file) × (list.pages ≡ ahead.coming)) ⊎ (result ≡ self.now.here) }
        ensures front { (end : ℕ) (rest : Entries) (file : List ℕ) → (ahead : HasAheadTo (Some end) geo.now self.now.cursor rest file)
            → ((list : HasFront geo.now result end rest file) × (list.pages ≡ ahead.coming)) ⊎ (result ≡ self.now.here) }
    {
        // A store has fewer pages than there are numbers, so its last page's next one is told apart from each page.
        let _pages = geo.pages();
        match self.cursor.from_here() {
            Some(part) => part,
            None => self.here,
        }
    }
}
