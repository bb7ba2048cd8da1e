//! The program's constants are the numbers of the format.
ghost use Rattle.std.specs.Prelude.{◌≡◌};
ghost use Rattle.blsm_model.specs.Format.{callers, most_key, most_text, overhead, most_weight, most_writes, most_pack, most_rows};

use crate::{CALLERS, Key, Op, Pack, RowList, Text};

/// Does nothing, and stands for its clauses: what the program names by constants of its own is what every clause names by
/// the numbers of the format. A constant that differs is refused here.
pub fn format_numbers()
    ensures callers { CALLERS ≡ callers }
    ensures key { Key.MAX_LEN ≡ most_key }
    ensures text { Text.MAX_LEN ≡ most_text }
    ensures overhead { Op.OVERHEAD ≡ overhead }
    ensures weight { Op.MAX_WEIGHT ≡ most_weight }
    ensures writes { Pack.MOST ≡ most_writes }
    ensures pack { Pack.MOST_WEIGHT ≡ most_pack }
    ensures rows { RowList.MAX_LEN ≡ most_rows }
{}
