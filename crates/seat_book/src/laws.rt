//! What the calls of the book keep. The functions do nothing: each stands for the law that its clause names.
ghost use Rattle.seat_book.specs.Laws.{CallsKeep};
ghost use Rattle.std.specs.Prelude.{◌≡◌, ℕ, IsTrue, length};
ghost use Rattle.blsm_model.specs.declared.op.Op.{Op};
ghost use Rattle.blsm_model.specs.declared.history.Reply.TheVariants.{Done};
ghost use Rattle.blsm_model.specs.Legal.{is_write};
ghost use Rattle.tree_machine.specs.Steps.{last_write};
ghost use Rattle.seat_book.specs.Places.{HasWrite};
ghost use Rattle.seat_book.specs.State.{BookState, noted_in};

/// A write that was done is the seat's last one when it is noted.
pub fn entries_have_places()
    ensures { (b : BookState) (seat : ℕ) (op : Op) → IsTrue (is_write op)
        → (last_write seat (noted_in seat op Done b).book.entries ≡ length b.book.entries) × HasWrite seat (noted_in seat op Done b).book }
{}

/// A call for one seat notes entries of that seat alone, counts one quantum at most, and changes nothing of another seat.
pub fn other_seats_stay()
    ensures { (seat : ℕ) (b : BookState) → CallsKeep seat b }
{}
