//! The program: it makes the real streams and a shelf of files, and makes the one call.
#![tactic(auto)]

ghost use Rattle.std.specs.Prelude.{map, string_bytes};
ghost use Rattle.std.specs.Process.{exit_status};
ghost use Rattle.blsm_run.specs.Outcome.{Tells, no_memory};
ghost use Rattle.blsm_run.specs.Outside.{outside};
ghost use Rattle.blsm.specs.Program.{EndsWith};

use blsm_model::NoGate;
use blsm_run::{Status, blsm_run};
use disk_trait::Shelf;
use real_edge::{FileShelf, StdSink, StdSource};
use refusal::{Failed, NoMemory};
use std::alloc::Global;
use std::env;
use std::io::ErrorKind;
use std::process::ExitCode;
use std::rt::Env;
use std::sync::Wait;
use std::thread::Threads;
use text_io::{Sink, Source, write_all};

// The words of the command line. Where one is no text there are none, and the call refuses them.
fn words<R: Env + Alloc<A = Global>>(rt: &R, alloc: Global) -> Result<Vec<String>, NoMemory> {
    match env::args(rt) {
        Ok(args) => Ok(args.collect(alloc)?),
        Err(fault) if fault.kind() == ErrorKind::OutOfMemory => Err(NoMemory),
        Err(_) => Ok(Vec::new(alloc)),
    }
}

// Want of memory before the call: the line and the status that the call has for it.
fn tell_no_memory<K: Sink>(sink: &mut K) -> Status
    ensures { Tells (K.state sink.old) (K.state sink.new) no_memory result }
{
    match write_all(sink, b"no memory\n") {
        Ok(()) => Status::NoMemory,
        Err(Failed) => Status::SinkFault,
    }
}

// Makes the call, and answers the exit code.
fn call<R: Threads + Wait + Sync, S: Source, K: Sink, H: Shelf>(
    rt: &R,
    alloc: Global,
    words: &[String],
    source: &mut S,
    sink: &mut K,
    shelf: &mut H,
) -> ExitCode
    ensures { EndsWith H.D.state (outside (map string_bytes words.now) (S.state source.old) (S.state source.new) (H.state shelf.old) (H.state shelf.new)) (K.state sink.old) (K.state sink.new) (exit_status result) }
{
    let status = blsm_run(rt, alloc, words, source, sink, shelf, &NoGate);
    ExitCode::from(status.code())
}

fn main(rt: HostRuntime) -> ExitCode {
    let alloc = rt.alloc();
    let mut sink = StdSink::new(rt.stdout());
    let Ok(words) = words(&rt, alloc) else {
        return ExitCode::from(tell_no_memory(&mut sink).code());
    };
    let mut source = StdSource::new(rt.stdin());
    let mut shelf = FileShelf::new(&rt);
    call(&rt, alloc, &words, &mut source, &mut sink, &mut shelf)
}

#[cfg(test)]
mod tests;
