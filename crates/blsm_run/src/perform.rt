//! The steps of a call up to its answer.
ghost use Rattle.std.specs.Prelude.{◌≡◌, ◌≤◌, ℕ, IfOk, List, Some, map, string_bytes};
ghost use Rattle.program_words.specs.Words.{AreAccepted, IsInRange, asked_by, asked_of, most_callers, most_ship, most_workers, run, serve};
ghost use Rattle.text_io.specs.Text.{SinkState};
ghost use Rattle.blsm_run.specs.Cause.{Cause};
ghost use Rattle.blsm_run.specs.Outcome.{HasMadeAnswer, HasTold, outcome_of};
ghost use Rattle.blsm_run.specs.Outside.{outside};

use crate::outcome::{Answer, Refusal};
use crate::source::read_source;
use crate::stores::{check_on_shelf, make_on_shelf, run_on_shelf, serve_on_shelf, settle_on_shelf};
use blsm_model::Gate;
use disk_trait::Shelf;
use program_words::{Options, Request, read_words};
use std::alloc::Global;
use std::sync::Wait;
use std::thread::Threads;
use store_trial::try_seed;
use text_io::{Sink, Source};

// Reads the script and runs it over the store on the disk of a name, as the options say.
fn run<R: Threads + Wait + Sync, S: Source, H: Shelf, G: Gate + Sync>(
    rt: &R,
    alloc: Global,
    source: &mut S,
    shelf: &mut H,
    name: &str,
    options: Options,
    gate: &G,
) -> Result<Answer, Refusal>
    requires few { options.workers ≤ most_workers }
    requires ships { options.ships ≤ most_ship }
    ensures cause { (words : List (List ℕ)) → AreAccepted words → asked_by words ≡ Some (run name.now options)
        → Cause H.D.state (outside words (S.state source.old) (S.state source.new) (H.state shelf.old) (H.state shelf.new)) (outcome_of result) }
    ensures made { IfOk result HasMadeAnswer }
    ensures told { (sink : SinkState) → HasTold (outcome_of result) sink sink }
{
    let script = read_source(alloc, source)?;
    let finished = run_on_shelf(
        rt,
        alloc,
        shelf,
        name,
        script.lines(),
        script.room(),
        options.workers,
        options.turns,
        gate,
    )?;
    Ok(Answer::Ran(options, finished))
}

// Serves the lines of the source over the store on the disk of a name, with room for the callers for which the words ask, and
// the first ship of this number.
fn serve<S: Source, K: Sink, H: Shelf>(
    alloc: Global,
    source: &mut S,
    sink: &mut K,
    shelf: &mut H,
    name: &str,
    callers: u32,
    ships: u64,
) -> Result<Answer, Refusal>
    requires some { 1 ≤ callers }
    requires few { callers ≤ most_callers }
    requires number { ships ≤ most_ship }
    ensures cause { (words : List (List ℕ)) → AreAccepted words → asked_by words ≡ Some (serve name.now callers ships)
        → Cause H.D.state (outside words (S.state source.old) (S.state source.new) (H.state shelf.old) (H.state shelf.new)) (outcome_of result) }
    ensures made { IfOk result HasMadeAnswer }
    ensures told { HasTold (outcome_of result) (K.state sink.old) (K.state sink.new) }
{
    let served = serve_on_shelf(alloc, shelf, name, callers, ships, source, sink)?;
    Ok(Answer::Served(ships, served))
}

// Does what a request asks for, which the words gave.
fn carry_out<R: Threads + Wait + Sync, S: Source, K: Sink, H: Shelf, G: Gate + Sync>(
    rt: &R,
    alloc: Global,
    request: Request,
    source: &mut S,
    sink: &mut K,
    shelf: &mut H,
    gate: &G,
) -> Result<Answer, Refusal>
    requires range { IsInRange (asked_of request) }
    ensures cause { (words : List (List ℕ)) → AreAccepted words → asked_by words ≡ Some (asked_of request.entry)
        → Cause H.D.state (outside words (S.state source.old) (S.state source.new) (H.state shelf.old) (H.state shelf.new)) (outcome_of result) }
    ensures made { IfOk result HasMadeAnswer }
    ensures told { HasTold (outcome_of result) (K.state sink.old) (K.state sink.new) }
{
    match request {
        Request::Make { name, geometry } => Ok(Answer::Made(make_on_shelf(
            shelf, name, &geometry,
        )?)),
        Request::Run { name, options } => run(rt, alloc, source, shelf, name, options, gate),
        Request::Serve {
            name,
            callers,
            ships,
        } => serve(alloc, source, sink, shelf, name, callers, ships),
        Request::Check { name } => Ok(Answer::Checked(check_on_shelf(alloc, shelf, name)?)),
        Request::Settle { name } => Ok(Answer::Settled(settle_on_shelf(alloc, shelf, name)?)),
        Request::Trial { seed, count } => Ok(Answer::Tried(
            seed,
            count,
            try_seed(alloc, seed, count)?.1,
        )),
    }
}

/// Does what the words ask for.
pub(crate) fn perform<R: Threads + Wait + Sync, S: Source, K: Sink, H: Shelf, G: Gate + Sync>(
    rt: &R,
    alloc: Global,
    words: &[String],
    source: &mut S,
    sink: &mut K,
    shelf: &mut H,
    gate: &G,
) -> Result<Answer, Refusal>
    ensures cause { Cause H.D.state (outside (map string_bytes words.now) (S.state source.old) (S.state source.new) (H.state shelf.old) (H.state shelf.new)) (outcome_of result) }
    ensures made { IfOk result HasMadeAnswer }
    ensures told { HasTold (outcome_of result) (K.state sink.old) (K.state sink.new) }
{
    match read_words(alloc, words) {
        Ok(request) => carry_out(rt, alloc, request, source, sink, shelf, gate),
        Err(why) => Err(Refusal::from(why)),
    }
}
