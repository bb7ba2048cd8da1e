//! How a run ended.
ghost use Rattle.std.specs.Prelude.{◌≡◌, ◌<◌, length};
ghost use Rattle.std.specs.List.{list_any};
ghost use Rattle.blsm_model.specs.Book.{entry_at};
ghost use Rattle.blsm_model.specs.Stored.{as_reply};
ghost use Rattle.tree_machine.specs.Outcomes.{is_by_page, is_damaged};
ghost use Rattle.store_run.specs.Run.{IsEnding};

use crate::run::Ending;
use blsm_model::{Annals, ShortReply, Totals, Why};

// The reply tells of a damaged page.
fn tells_page(reply: &ShortReply) -> bool
    ensures { result ≡ is_damaged (as_reply reply.now) }
{
    matches!(reply, ShortReply::Damaged(_))
}

// The entry at a place tells of a damaged page.
fn tells_damage(annals: &Annals, place: u32) -> bool
    requires { place < length annals.now.entries }
    ensures { result ≡ is_damaged (entry_at annals.now place).reply }
{
    match annals.short_reply(place) {
        Some(reply) => tells_page(reply),
        None => false,
    }
}

// An entry tells of a damaged page.
fn any_damage(annals: &Annals) -> bool
    ensures { result ≡ list_any (λ e. is_damaged e.reply) annals.now.entries }
{
    let count = annals.len() as u32;
    for place in 0..count {
        if tells_damage(annals, place) {
            return true;
        }
    }
    false
}

// The store was stopped because a page was found damaged.
fn stopped_by_page(totals: &Totals) -> bool
    ensures { result ≡ is_by_page totals.now.stopped }
{
    matches!(totals.stopped, Some(Why::BadPage(_)))
}

/// How a run ended that leaves these annals and totals and a disk with so many faults.
pub(crate) fn ending(faults: u64, annals: &Annals, totals: &Totals) -> Ending
    ensures { IsEnding result
        (record { charge = 0; entries = annals.now.entries; quanta = annals.now.quanta; totals = totals.now; resident = 0 }) faults }
{
    if faults > 0 {
        Ending::Faulted
    } else if any_damage(annals) || stopped_by_page(totals) {
        Ending::Damaged
    } else {
        Ending::Well
    }
}
