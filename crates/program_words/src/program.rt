//! What the program takes: six commands.
ghost use Rattle.std.specs.Prelude.{◌≡◌, IfOk, false};
ghost use Rattle.clap.specs.Words.{App, Rule, app_of, rule_of, with_rule, with_subcommand};
ghost use Rattle.program_words.specs.Words.{number_rule, file as file_rule, on_file as on_file_app, make_command as make_app, run_command as run_app, trial_command as trial_app, serve_command as serve_app, program as program_app, IsCommand, IsRule};

use crate::numbers::{MAX_CALLERS, MAX_COUNT, MAX_SHIP, MAX_TURNS, MAX_WORKERS, MIN_COUNT};
use blsm_model::Geometry;
use clap::builder::ValueParser;
use clap::{Arg, ArgAction, Command};
use std::alloc::{AllocError, Global};

// The one argument that is no option.
fn file<'a>(alloc: Global) -> Arg<'a>
    ensures { IsRule file_rule result }
{
    Arg::new(alloc, "FILE")
        .required(true)
        .action(ArgAction::Set)
}

// An option that takes one number in this range.
fn number<'a>(alloc: Global, name: &'a str, least: u64, most: u64) -> Arg<'a>
    ensures { IsRule (number_rule (record { id = name.entry.now; least = least; most = most })) result }
{
    Arg::new(alloc, name)
        .long(name)
        .value_parser(ValueParser::Unsigned(least, most))
}

// A command on a file, with no option. Each command is made in a call that stays one, since its parts take kilobytes on the stack.
#[inline(never)]
fn on_file<'a>(alloc: Global, name: &'a str) -> Result<Command<'a>, AllocError>
    ensures { IfOk result (IsCommand (on_file_app name.entry.now)) }
{
    Command::new(alloc, name).arg(file(alloc))
}

// A command with one argument more, where there is one. What isn't taken is dropped by a call: a drop at an arm's end is a step for each field.
fn with_arg<'a>(
    command: Result<Command<'a>, AllocError>,
    arg: Arg<'a>,
) -> Result<Command<'a>, AllocError>
    ensures { (app : App) (rule : Rule) → IfOk command.entry (IsCommand app) → IsRule rule arg.entry → IfOk result (IsCommand (with_rule app rule)) }
{
    match command {
        Ok(command) => command.arg(arg),
        Err(refused) => {
            drop(arg);
            Err(refused)
        }
    }
}

// `make`, with the four numbers of a geometry.
#[inline(never)]
fn make<'a>(alloc: Global) -> Result<Command<'a>, AllocError>
    ensures { IfOk result (IsCommand make_app) }
{
    let half = number(alloc, "half", Geometry::MIN_HALF, Geometry::MAX_HALF).default_value("32768");
    let with_half = with_arg(on_file(alloc, "make"), half);
    let ratio = number(alloc, "ratio", Geometry::MIN_RATIO, Geometry::MAX_RATIO).default_value("4");
    let with_ratio = with_arg(with_half, ratio);
    let low = number(alloc, "low", 0, Geometry::MAX_HALF).default_value("16384");
    let with_low = with_arg(with_ratio, low);
    let quantum = number(
        alloc,
        "quantum",
        Geometry::MIN_QUANTUM,
        Geometry::MAX_QUANTUM,
    )
    .default_value("4096");
    with_arg(with_low, quantum)
}

// `run`, with its merge workers, their turns, the number of its first ship, and whether the resident weight is printed.
#[inline(never)]
fn run<'a>(alloc: Global) -> Result<Command<'a>, AllocError>
    ensures { IfOk result (IsCommand run_app) }
{
    let workers = number(alloc, "workers", 0, MAX_WORKERS).default_value("2");
    let with_workers = with_arg(on_file(alloc, "run"), workers);
    let turns = number(alloc, "turns", 0, MAX_TURNS).default_value("1000");
    let with_turns = with_arg(with_workers, turns);
    let ships = number(alloc, "ships", 0, MAX_SHIP).default_value("0");
    let with_ships = with_arg(with_turns, ships);
    let resident = number(alloc, "resident", 0, 1).default_value("0");
    with_arg(with_ships, resident)
}

// `serve`, with its callers, and the number of its first ship.
#[inline(never)]
fn serve<'a>(alloc: Global) -> Result<Command<'a>, AllocError>
    ensures { IfOk result (IsCommand serve_app) }
{
    let callers = number(alloc, "callers", 1, MAX_CALLERS).default_value("16");
    let with_callers = with_arg(on_file(alloc, "serve"), callers);
    let ships = number(alloc, "ships", 0, MAX_SHIP).default_value("0");
    with_arg(with_callers, ships)
}

// `trial`, with its seed and its count.
#[inline(never)]
fn trial<'a>(alloc: Global) -> Result<Command<'a>, AllocError>
    ensures { IfOk result (IsCommand trial_app) }
{
    let seed = number(alloc, "seed", 0, u64::MAX).required(true);
    let with_seed = Command::new(alloc, "trial").arg(seed);
    let count = number(alloc, "count", MIN_COUNT, MAX_COUNT).required(true);
    with_arg(with_seed, count)
}

// The program with one command more, where there are both.
fn with_command<'a>(
    program: Result<Command<'a>, AllocError>,
    command: Result<Command<'a>, AllocError>,
) -> Result<Command<'a>, AllocError>
    ensures { (app sub : App) → IfOk program.entry (λ old. app_of old ≡ app) → IfOk command.entry (IsCommand sub) → IfOk result (λ new. app_of new ≡ with_subcommand app sub.top) }
{
    match program {
        Ok(program) => match command {
            Ok(command) => program.subcommand(command),
            Err(refused) => {
                drop(program);
                Err(refused)
            }
        },
        Err(refused) => {
            drop(command);
            Err(refused)
        }
    }
}

/// The program, which wants a command.
pub(crate) fn program<'a>(alloc: Global) -> Result<Command<'a>, AllocError>
    ensures { IfOk result (λ command. app_of command ≡ program_app) }
{
    let bare = Command::new(alloc, "blsm").subcommand_required(true);
    let with_make = with_command(Ok(bare), make(alloc));
    let with_run = with_command(with_make, run(alloc));
    let with_check = with_command(with_run, on_file(alloc, "check"));
    let with_trial = with_command(with_check, trial(alloc));
    let with_serve = with_command(with_trial, serve(alloc));
    with_command(with_serve, on_file(alloc, "settle"))
}
