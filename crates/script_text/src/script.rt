// A whole script.
ghost use Rattle.std.specs.Prelude.{◌≡◌, ℕ, ◌<◌, ◌≤◌, [], IfOk, length, slice_index, sum};
ghost use Rattle.std.specs.Option.{option_copied, unwrap_or};
ghost use Rattle.std.specs.List.{All};
ghost use Rattle.blsm_model.specs.Format.{callers, most_lines, most_rows_asked};
ghost use Rattle.blsm_model.specs.Scripts.{lines_of, rows_of, rows_asked};
ghost use Rattle.script_text.specs.Grammar.{AreLines, IsAllowed, IsBadLine, IsOnlyBadLine, IsOnlyReading, IsScript, all_rows_asked};
ghost use Rattle.script_text.specs.Script.{IfBad};
ghost use Rattle.script_text.specs.declared.script.ScriptFault.TheVariants.{NoMemory};

use crate::line::{cut, read_line};
use blsm_model::{CALLERS, Line, Op, Room};
use std::alloc::{AllocFailed, Global};
use std::marker::Model;
use thiserror::Error;

/// How many lines a script may have.
pub const MOST_LINES: u32 = 65_536;

/// How many rows the lines of a script may ask for together.
pub const MOST_ROWS_ASKED: u32 = 131_072;

const SEATS: usize = CALLERS as usize;

/// Why a text is no script, or wasn't read.
#[derive(Clone, Copy, PartialEq, Eq, Debug, Error)]
pub enum ScriptFault {
    /// The line with this number, counted from 1, is the first that is none of a script's, is one too many, or asks for more
    /// rows than those before it leave.
    #[error("bad line {0}")]
    Bad(u32),
    /// Memory was refused.
    #[error("no memory")]
    NoMemory,
}

impl<T: Drop> From<AllocFailed<T>> for ScriptFault {
    ghost from_gives = { λ _ fault. fault ≡ NoMemory };

    fn from(_refused: AllocFailed<T>) -> ScriptFault {
        ScriptFault::NoMemory
    }
}

/// A script. Contracts see it as the list of its lines, of which each is allowed, which are at most 65,536, and which ask for
/// at most 131,072 rows together.
#[derive(Debug, Drop)]
pub struct Script {
    lines: Vec<Line>,
}

impl Model for Script {
    ghost use Rattle.std.specs.Prelude.{List};
    ghost use Rattle.blsm_model.specs.declared.history.Line.{Line};
    ghost use Rattle.script_text.specs.Grammar.{AreLines};

    ghost Value = { List Line };

    ghost view = { λ s. s.lines.items };

    ghost invariant = { λ s. AreLines s.lines.items };
}

/// How many rows a command asks for.
pub fn count_rows(op: &Op) -> u32
    ensures { result ≡ rows_of op.now }
{
    match op {
        Op::Next(n) => *n,
        _ => 0,
    }
}

impl Script {
    // The script of these lines.
    pub(crate) fn from_lines(lines: Vec<Line>) -> Script
        requires { AreLines lines.items }
        ensures { result ≡ lines.items }
    {
        Script { lines }
    }

    /// The lines in order.
    pub fn lines(&self) -> &[Line]
        ensures lines { result.now ≡ self.now }
        ensures allowed { All IsAllowed result.now }
        ensures few { length result.now ≤ most_lines }
        ensures asked { all_rows_asked result.now ≤ most_rows_asked }
    {
        &self.lines
    }

    /// How many lines each caller's seat has, and how many rows these ask for.
    pub fn room(&self) -> Room
        ensures entries { (seat : ℕ) → seat < callers → slice_index result.entries seat ≡ length (lines_of seat self.now) }
        ensures rows { (seat : ℕ) → seat < callers → slice_index result.rows seat ≡ rows_asked seat self.now }
        ensures all_entries { sum result.entries ≡ length self.now }
        ensures few_entries { sum result.entries ≤ most_lines }
        ensures few_rows { sum result.rows ≤ most_rows_asked }
    {
        let lines = self.lines();
        let mut entries = [0u32; SEATS];
        let mut rows = [0u32; SEATS];
        for line in lines {
            let asked = count_rows(&line.op);
            let seat = line.seat as usize;
            entries[seat] += 1;
            rows[seat] += asked;
        }
        Room { entries, rows }
    }
}

/// What stands behind the end of a line, or nothing where it has no end.
pub fn remainder(behind: Option<&[u8]>) -> &[u8]
    ensures { result.now ≡ unwrap_or (option_copied behind.entry) [] }
{
    match behind {
        Some(rest) => rest,
        None => &[],
    }
}

// The lines that the text spells.
fn read_lines(alloc: Global, text: &[u8]) -> Result<Vec<Line>, ScriptFault>
    ensures script { IfOk result (λ lines. IsScript text.now lines.items) }
    ensures bad { IfBad result (IsBadLine text.now) }
{
    let mut lines = Vec::new(alloc);
    let mut rest = text;
    let mut asked = 0u32;
    while !rest.is_empty() {
        let number = lines.len() as u32 + 1;
        let (bytes, behind) = cut(rest, b'\n');
        if number > MOST_LINES {
            return Err(ScriptFault::Bad(number));
        }
        let line = match read_line(bytes) {
            Some(line) => line,
            None => return Err(ScriptFault::Bad(number)),
        };
        asked += count_rows(&line.op);
        if asked > MOST_ROWS_ASKED {
            return Err(ScriptFault::Bad(number));
        }
        lines.push(line)?;
        rest = remainder(behind);
    }
    Ok(lines)
}

/// Reads a script. `Bad` says which line is the first that is wrong; a text without a wrong line is a script.
/// A text has one reading: no other script, and no other bad line, is to be read in it.
pub fn read_script(alloc: Global, text: &[u8]) -> Result<Script, ScriptFault>
    ensures script { IfOk result (λ script. IsScript text.now script) }
    ensures only_script { IfOk result (λ script. IsOnlyReading text.now script) }
    ensures bad { IfBad result (IsBadLine text.now) }
    ensures only_bad { IfBad result (IsOnlyBadLine text.now) }
{
    let lines = read_lines(alloc, text)?;
    Ok(Script { lines })
}
