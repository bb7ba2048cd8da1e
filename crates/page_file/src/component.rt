//! Components: sorted runs of entries on pages, each of which names the next one.
//!
//! A component reads as a list of entries exactly where its pages, followed from the first, are as many valid pages as it says,
//! of which only the last has no next one; the keys strictly rise, over the page ends too; its entries and its weight are
//! those of the pages together; and no page is met twice.
ghost use Rattle.std.specs.Prelude.{◌≡◌, ℕ, List, []};
ghost use Rattle.blsm_model.specs.Sizes.{Sizes};
ghost use Rattle.blsm_model.specs.Components.{empty_component};
ghost use Rattle.page_file.specs.Component.{ReadsAs};

use crate::page::number_of;
use blsm_model::Component;

/// The component without entries: it has no page, and its first one's number is 2^32 - 1.
pub fn no_component() -> Component
    ensures empty { result ≡ empty_component }
    // It reads so in any file.
    ensures reads { (sizes : Sizes) (file : List ℕ) → ReadsAs sizes result [] file }
{
    Component {
        first: number_of(None),
        pages: 0,
        entries: 0,
        weight: 0,
    }
}
