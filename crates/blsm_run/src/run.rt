//! The program's one call.
ghost use Rattle.std.specs.Prelude.{map, string_bytes};
ghost use Rattle.blsm_run.specs.Answer.{Answers};
ghost use Rattle.blsm_run.specs.Outside.{outside};

use crate::Status;
use crate::answer::tell;
use crate::perform::perform;
use blsm_model::Gate;
use disk_trait::Shelf;
use std::alloc::Global;
use std::sync::Wait;
use std::thread::Threads;
use text_io::{Sink, Source};

/// Reads the words and does what they ask for: it makes a store on the disk of a name; runs a script from the source over the store on one, by
/// sixteen callers and so many merge workers on threads, and prints its history; serves a session over it, each line done and told as it comes;
/// checks the store on one and prints its numbers; settles the store on one and prints what that took; or runs a script that a seed makes and prints
/// its summary.
pub fn blsm_run<R: Threads + Wait + Sync, S: Source, K: Sink, H: Shelf, G: Gate + Sync>(
    rt: &R,
    alloc: Global,
    words: &[String],
    src: &mut S,
    sink: &mut K,
    shelf: &mut H,
    gate: &G,
) -> Status
    ensures { Answers H.D.state (outside (map string_bytes words.now) (S.state src.old) (S.state src.new) (H.state shelf.old) (H.state shelf.new)) (K.state sink.old) (K.state sink.new) result }
{
    let answer = perform(rt, alloc, words, src, sink, shelf, gate);
    tell(sink, &answer)
}
