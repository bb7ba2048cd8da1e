//! What a command was answered.

use blsm_model::ShortReply;

/// The reply to a command, but of a `next` that gave rows only how many they are, and of a new or a swap whose condition doesn't hold only that it
/// doesn't: the history has the rows, and the value that shows it.
#[derive(PartialEq, Eq, Debug, Drop)]
pub enum Told {
    /// A reply that gives no rows.
    Short(ShortReply),
    /// The condition of a new or a swap doesn't hold.
    Kept,
    /// So many rows.
    Rows(u32),
}
