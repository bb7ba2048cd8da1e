//! A walk over a front, and then over the component behind it.
ghost use Rattle.std.specs.Prelude.{IfSome};
ghost use Rattle.std.proofs.Props.{props};
ghost use Rattle.scan_view.specs.Hold.{IsEmptyOrPaged};

use blsm_model::{Component, Key};
use run_cursor::Walk;

/// A walk over a front, and then, where that is through, over what the component behind it has above the released key: one cursor for both.
#[derive(Drop)]
pub struct Splice {
    pub walk: Walk,
    /// The component behind the front, until the walk goes on to it.
    pub rest: Option<Component>,
    pub released: Option<Key>,
    ghost rest_is: { IfSome rest IsEmptyOrPaged } by { Prim.hlevel props },
}
