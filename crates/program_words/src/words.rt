//! Words are read.
ghost use Rattle.std.specs.Prelude.{◌≡◌, ◌≢◌, map, option_map, string_bytes};
ghost use Rattle.clap.specs.Words.{found_of, kind_of, rows_of};
ghost use Rattle.program_words.specs.Words.{asked_in, asked_of, check, file_in, geometry_in, make_in, run_in, serve_in, settle, trial_in, ReadsWords};

use crate::numbers::{
    MAX_CALLERS, MAX_COUNT, MAX_SHIP, MAX_TURNS, MAX_WORKERS, MIN_COUNT, number_of,
};
use crate::program::program;
use crate::request::{Options, Request, Unread};
use blsm_model::Geometry;
use clap::error::ErrorKind;
use clap::{ArgMatches, Error};
use std::alloc::Global;

// The geometry that `make` asks for: its low mark is at most its half spring.
fn geometry_of(matches: &ArgMatches) -> Option<Geometry>
    ensures { result ≡ geometry_in (rows_of (found_of matches.now)) }
{
    let half = number_of(matches, "half", Geometry::MIN_HALF, Geometry::MAX_HALF)?;
    let ratio = number_of(matches, "ratio", Geometry::MIN_RATIO, Geometry::MAX_RATIO)?;
    let low = number_of(matches, "low", 0, Geometry::MAX_HALF)?;
    let quantum = number_of(
        matches,
        "quantum",
        Geometry::MIN_QUANTUM,
        Geometry::MAX_QUANTUM,
    )?;
    match Geometry::new(half, ratio, low, quantum) {
        Ok(geometry) => Some(geometry),
        Err(_fault) => None,
    }
}

// What `make` asks for.
fn make_of<'a>(matches: &ArgMatches<'a>) -> Option<Request<'a>>
    ensures { option_map asked_of result ≡ make_in (rows_of (found_of matches.now)) }
{
    let name = matches.get_str("FILE")?;
    let geometry = geometry_of(matches)?;
    Some(Request::Make { name, geometry })
}

// What `trial` asks for.
fn trial_of<'a>(matches: &ArgMatches<'a>) -> Option<Request<'a>>
    ensures { option_map asked_of result ≡ trial_in (rows_of (found_of matches.now)) }
{
    let seed = number_of(matches, "seed", 0, u64::MAX)?;
    let count = number_of(matches, "count", MIN_COUNT, MAX_COUNT)?;
    Some(Request::Trial {
        seed,
        count: count as u32,
    })
}

// What `run` asks for.
fn run_of<'a>(matches: &ArgMatches<'a>) -> Option<Request<'a>>
    ensures { option_map asked_of result ≡ run_in (rows_of (found_of matches.now)) }
{
    let name = matches.get_str("FILE")?;
    let workers = number_of(matches, "workers", 0, MAX_WORKERS)?;
    let turns = number_of(matches, "turns", 0, MAX_TURNS)?;
    let ships = number_of(matches, "ships", 0, MAX_SHIP)?;
    let resident = number_of(matches, "resident", 0, 1)?;
    Some(Request::Run {
        name,
        options: Options {
            workers: workers as u32,
            turns: turns as u32,
            ships,
            resident: resident == 1,
        },
    })
}

// What `serve` asks for.
fn serve_of<'a>(matches: &ArgMatches<'a>) -> Option<Request<'a>>
    ensures { option_map asked_of result ≡ serve_in (rows_of (found_of matches.now)) }
{
    let name = matches.get_str("FILE")?;
    let callers = number_of(matches, "callers", 1, MAX_CALLERS)?;
    let ships = number_of(matches, "ships", 0, MAX_SHIP)?;
    Some(Request::Serve {
        name,
        callers: callers as u32,
        ships,
    })
}

// What `check` asks for.
fn check_of<'a>(matches: &ArgMatches<'a>) -> Option<Request<'a>>
    ensures { option_map asked_of result ≡ option_map check (file_in (rows_of (found_of matches.now))) }
{
    match matches.get_str("FILE") {
        Some(name) => Some(Request::Check { name }),
        None => None,
    }
}

// What `settle` asks for.
fn settle_of<'a>(matches: &ArgMatches<'a>) -> Option<Request<'a>>
    ensures { option_map asked_of result ≡ option_map settle (file_in (rows_of (found_of matches.now))) }
{
    match matches.get_str("FILE") {
        Some(name) => Some(Request::Settle { name }),
        None => None,
    }
}

// What the command of this name asks for.
fn request_of<'a>(command: &str, matches: &ArgMatches<'a>) -> Option<Request<'a>>
    ensures { option_map asked_of result ≡ asked_in (command.now, rows_of (found_of matches.now)) }
{
    match command {
        "make" => make_of(matches),
        "run" => run_of(matches),
        "check" => check_of(matches),
        "trial" => trial_of(matches),
        "serve" => serve_of(matches),
        "settle" => settle_of(matches),
        _ => None,
    }
}

// Why words were refused with this error.
fn why(error: &Error) -> Unread
    ensures refused { result ≡ Unread.Refused → kind_of error.now ≢ ErrorKind.OutOfMemory }
    ensures no_memory { result ≡ Unread.NoMemory → kind_of error.now ≡ ErrorKind.OutOfMemory }
{
    match error.kind() {
        ErrorKind::OutOfMemory => Unread::NoMemory,
        _ => Unread::Refused,
    }
}

/// What the words ask for, of which the first is the program's name.
pub fn read_words(alloc: Global, words: &[String]) -> Result<Request<'_>, Unread>
    ensures { ReadsWords (map string_bytes words.now) result }
{
    let Ok(program) = program(alloc) else {
        return Err(Unread::NoMemory);
    };
    let matches = match program.try_get_matches_from(words) {
        Ok(matches) => matches,
        Err(error) => return Err(why(&error)),
    };
    match matches.subcommand() {
        Some((command, found)) => match request_of(command, found) {
            Some(request) => Ok(request),
            None => Err(Unread::Refused),
        },
        None => Err(Unread::Refused),
    }
}
