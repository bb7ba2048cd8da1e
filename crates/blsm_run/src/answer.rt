//! What a call answers: the text that it writes, a line in one call of the sink, and its status.
ghost use Rattle.std.specs.Prelude.{◌≡◌, ◌+◌, ◌≤◌, ◌++◌, decimal, length, IfOk, Ok, Err};
ghost use Rattle.text_io.specs.Text.{SinkState, Writes};
ghost use Rattle.ship_text.specs.Ships.{most_first};
ghost use Rattle.store_run.specs.Run.{run_of};
ghost use Rattle.blsm_run.specs.Outcome.{
  HasMadeAnswer,
  HasTold,
  Tells,
  TellsLines,
  WritesAnswer,
  WritesRest,
  and_component,
  newline,
  outcome_of,
  place_text,
  report_text,
  resident_text,
  run_text,
  settled_text,
  status_of,
  status_of_ending,
  status_of_session,
  text_of,
};

use crate::Status;
use crate::outcome::{Answer, Refusal};
use blsm_model::Component;
use program_words::Options;
use recover_open::{Place, Report};
use refusal::Failed;
use script_text::{LONGEST, Piece, print_end, print_history, print_summary};
use ship_text::print_ships;
use store_run::{Ending, Finished, Settled};
use store_serve::{Closing, Served, print_closing};
use text_io::{Sink, write_all};

// A line with a number at its end.
fn print_numbered<K: Sink>(sink: &mut K, name: &[u8], number: u64) -> Result<(), Failed>
    requires { length name.now ≤ 100 }
    ensures { Writes (name.now ++ decimal number ++ newline) result (K.state sink.old) (K.state sink.new) }
{
    let mut piece = Piece::new();
    piece.add(name);
    piece.add_number(number);
    piece.add(b"\n");
    write_all(sink, piece.as_slice())
}

// A component's entries and weight, behind its name.
fn add_component(piece: &mut Piece, name: &[u8], component: &Component)
    requires { length piece.old + length name.now + 42 ≤ LONGEST }
    ensures text { piece.new ≡ piece.old ++ and_component name.now component.now }
    ensures fits { length piece.new ≤ length piece.old + length name.now + 42 }
{
    piece.add_named_number(name, component.entries);
    piece.add_and_number(component.weight);
}

fn print_report<K: Sink>(sink: &mut K, report: &Report) -> Result<(), Failed>
    ensures { Writes (report_text report.now) result (K.state sink.old) (K.state sink.new) }
{
    let mut piece = Piece::new();
    piece.add_named_number(b"ok version", report.version);
    add_component(&mut piece, b" c1", &report.c1);
    add_component(&mut piece, b" c1x", &report.c1x);
    add_component(&mut piece, b" c2", &report.c2);
    piece.add_named_number(b" lanes", report.lane_a);
    piece.add_and_number(report.lane_b);
    piece.add(b"\n");
    write_all(sink, piece.as_slice())
}

fn print_settled<K: Sink>(sink: &mut K, settled: &Settled) -> Result<(), Failed>
    ensures { Writes (settled_text settled.now) result (K.state sink.old) (K.state sink.new) }
{
    let mut piece = Piece::new();
    piece.add_named_number(b"settled version", settled.version);
    piece.add_named_number(b" quanta", settled.quanta);
    piece.add_named_number(b" of", settled.bound);
    piece.add(b"\n");
    write_all(sink, piece.as_slice())
}

fn print_place<K: Sink>(sink: &mut K, place: Place) -> Result<(), Failed>
    ensures { Writes (place_text place) result (K.state sink.old) (K.state sink.new) }
{
    match place {
        Place::Slots => write_all(sink, b"damaged slots\n"),
        Place::Lane(lane) => print_numbered(sink, b"damaged lane ", u64::from(lane)),
        Place::Page(page) => print_numbered(sink, b"damaged page ", u64::from(page)),
    }
}

fn print_refusal<K: Sink>(sink: &mut K, refusal: Refusal) -> Result<(), Failed>
    ensures { Writes (text_of (outcome_of (Err refusal))) result (K.state sink.old) (K.state sink.new) }
{
    match refusal {
        Refusal::Usage => write_all(sink, b"usage\n"),
        Refusal::SourceFault => write_all(sink, b"source fault\n"),
        Refusal::TooBig => write_all(sink, b"too big\n"),
        Refusal::BadLine(line) => print_numbered(sink, b"bad line ", line),
        Refusal::DiskFault => write_all(sink, b"disk fault\n"),
        Refusal::NotAStore => write_all(sink, b"not a store\n"),
        Refusal::NotEmpty(length) => print_numbered(sink, b"not empty ", length),
        Refusal::Damaged(place) => print_place(sink, place),
        Refusal::Worn(version) => print_numbered(sink, b"worn ", version),
        Refusal::NoMemory => write_all(sink, b"no memory\n"),
    }
}

// The end of a session's text, whose lines were told as they came. Where the sink failed at one nothing more is written.
fn print_rest<K: Sink>(sink: &mut K, served: &Served) -> Result<(), Failed>
    ensures { WritesRest served.now.closing served.now.finished.totals result (K.state sink.old) (K.state sink.new) }
{
    match served.closing {
        Closing::SinkFault => Err(Failed),
        closing => {
            print_end(sink, &served.finished.totals)?;
            print_closing(sink, closing)
        }
    }
}

// The line with what was held of the memory table in the end, in bytes of weight, where it is asked for.
fn print_resident<K: Sink>(sink: &mut K, is_asked: bool, weight: u64) -> Result<(), Failed>
    ensures { Writes (resident_text is_asked weight) result (K.state sink.old) (K.state sink.new) }
{
    if is_asked {
        print_numbered(sink, b"resident ", weight)
    } else {
        write_all(sink, b"")
    }
}

// The history of a run, and behind it what the options ask for: what was held in the end, and the ships.
fn print_run<K: Sink>(sink: &mut K, options: Options, run: &Finished) -> Result<(), Failed>
    requires { options.ships ≤ most_first }
    ensures { Writes (run_text options (run_of run.now)) result (K.state sink.old) (K.state sink.new) }
{
    print_history(sink, run.charge, &run.annals, &run.totals)?;
    print_resident(sink, options.resident, run.resident)?;
    print_ships(sink, options.ships, &run.annals)
}

// What was done: the length of a store that was made, the history of a run, the end of a session, the report of a check, the counts of a
// settling, the summary of a trial.
fn print_done<K: Sink>(sink: &mut K, answer: &Answer) -> Result<(), Failed>
    requires { HasMadeAnswer answer.now }
    ensures { WritesAnswer (outcome_of (Ok answer.now)) result (K.state sink.old) (K.state sink.new) }
{
    match answer {
        Answer::Made(length) => print_numbered(sink, b"made ", *length),
        Answer::Ran(options, run) => print_run(sink, *options, run),
        Answer::Served(_, served) => print_rest(sink, served),
        Answer::Checked(report) => print_report(sink, report),
        Answer::Settled(settled) => print_settled(sink, settled),
        Answer::Tried(seed, count, run) => print_summary(
            sink,
            *seed,
            *count,
            &run.annals,
            &run.totals,
        ),
    }
}

fn print_answer<K: Sink>(sink: &mut K, answer: &Result<Answer, Refusal>) -> Result<(), Failed>
    requires { IfOk answer.now HasMadeAnswer }
    ensures { WritesAnswer (outcome_of answer.now) result (K.state sink.old) (K.state sink.new) }
{
    match answer {
        Ok(done) => print_done(sink, done),
        Err(refusal) => print_refusal(sink, *refusal),
    }
}

// The status of a run whose history was written.
fn status_of_run(run: &Finished) -> Status
    ensures { result ≡ status_of_ending run.now.ending }
{
    match run.ending {
        Ending::Well => Status::Done,
        Ending::Faulted => Status::DiskFault,
        Ending::Damaged => Status::Damaged,
    }
}

// The status of a session: the sink's own first, then the disk's, and then why it ended.
fn status_of_session(served: &Served) -> Status
    ensures { result ≡ status_of_session served.now.finished.ending served.now.closing }
{
    match (served.finished.ending, served.closing) {
        (_, Closing::SinkFault) => Status::SinkFault,
        (Ending::Faulted, _) => Status::DiskFault,
        (Ending::Damaged, _) => Status::Damaged,
        (Ending::Well, Closing::Ended) => Status::Done,
        (Ending::Well, Closing::BadLine(_)) => Status::BadLine,
        (Ending::Well, Closing::NoRoom(_)) => Status::NoRoom,
        (Ending::Well, Closing::SourceFault) => Status::SourceFault,
    }
}

fn status_of_refusal(refusal: Refusal) -> Status
    ensures { result ≡ status_of (outcome_of (Err refusal)) }
{
    match refusal {
        Refusal::Usage => Status::Usage,
        Refusal::SourceFault => Status::SourceFault,
        Refusal::TooBig => Status::TooBig,
        Refusal::BadLine(_) => Status::BadLine,
        Refusal::DiskFault => Status::DiskFault,
        Refusal::NotAStore => Status::NotAStore,
        Refusal::NotEmpty(_) => Status::NotEmpty,
        Refusal::Damaged(_) | Refusal::Worn(_) => Status::Damaged,
        Refusal::NoMemory => Status::NoMemory,
    }
}

// The status of an answer whose text was written.
fn status_for(answer: &Result<Answer, Refusal>) -> Status
    ensures { result ≡ status_of (outcome_of answer.now) }
{
    match answer {
        Ok(Answer::Made(_) | Answer::Checked(_) | Answer::Settled(_) | Answer::Tried(..)) =>
            Status::Done,
        Ok(Answer::Ran(_, run)) => status_of_run(run),
        Ok(Answer::Served(_, served)) => status_of_session(served),
        Err(refusal) => status_of_refusal(*refusal),
    }
}

/// Writes the text of an answer, or what is still to be written of a session's, and answers its status.
pub(crate) fn tell<K: Sink>(sink: &mut K, answer: &Result<Answer, Refusal>) -> Status
    requires { IfOk answer.now HasMadeAnswer }
    ensures { (before : SinkState) → HasTold (outcome_of answer.now) before (K.state sink.old)
        → Tells before (K.state sink.new) (outcome_of answer.now) result × TellsLines (outcome_of answer.now) before (K.state sink.new) }
{
    match print_answer(sink, answer) {
        Ok(()) => status_for(answer),
        Err(Failed) => Status::SinkFault,
    }
}
