//! The numbers of options, as `clap` found them.
ghost use Rattle.std.specs.Prelude.{◌≡◌, ◌≤◌, IfSome};
ghost use Rattle.clap.specs.Words.{found_of, rows_of};
ghost use Rattle.program_words.specs.Words.{number_in};

use clap::ArgMatches;

/// The least count of a trial.
pub(crate) const MIN_COUNT: u64 = 1;

/// The greatest count of a trial: as many steps as a script has lines.
pub(crate) const MAX_COUNT: u64 = 65_536;

/// The greatest number of merge workers of a run.
pub(crate) const MAX_WORKERS: u64 = 8;

/// The greatest number of turns that each of them takes.
pub(crate) const MAX_TURNS: u64 = 1_000_000;

/// The greatest number of the first ship of a run or a session.
pub(crate) const MAX_SHIP: u64 = 9_223_372_036_854_775_808;

/// The greatest number of callers of a session.
pub(crate) const MAX_CALLERS: u64 = 16;

/// The number that an option was given, or its default, where it lies in this range.
pub(crate) fn number_of(matches: &ArgMatches, name: &str, least: u64, most: u64) -> Option<u64>
    ensures value { result ≡ number_in (record { id = name.now; least = least; most = most }) (rows_of (found_of matches.now)) }
    ensures inside { IfSome result (λ number. (least ≤ number) × (number ≤ most)) }
{
    let number = matches.get_one::<u64>(name)?;
    if least <= number && number <= most {
        Some(number)
    } else {
        None
    }
}
