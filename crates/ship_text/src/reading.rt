// Ships that are read from a text.
ghost use Rattle.std.specs.Prelude.{◌≡◌, ◌↔◌, ℕ, ◌+◌, ◌<◌, ◌≤◌, IfOk, IsTrue, List, codes, decimal, length, slice_index, sum};
ghost use Rattle.std.specs.List.{All};
ghost use Rattle.blsm_model.specs.declared.history.Entry.{Entry};
ghost use Rattle.blsm_model.specs.Format.{callers, most_entries, most_lines};
ghost use Rattle.blsm_model.specs.Printed.{command_text};
ghost use Rattle.script_text.specs.Grammar.{IsCommand};
ghost use Rattle.script_text.specs.Reading.{Reads, Spells};
ghost use Rattle.ship_text.specs.Ships.{most_first, printed_ships};
ghost use Rattle.ship_text.specs.Reading.{AreOnlyShips, AreShips, AreShipsOf, IfBad, IsBadShip, IsLoad, IsNumbered, IsOnlyBadShip, IsShip, IsShipLine, most_number, ships_told};
ghost use Rattle.ship_text.specs.declared.reading.ShipFault.TheVariants.{NoMemory};

use blsm_model::{CALLERS, Op, Room};
use script_text::{cut, read_command, read_number, remainder};
use std::alloc::{AllocFailed, Global};
use std::marker::Model;
use thiserror::Error;

/// The greatest number that a ship may have.
pub const MAX_NUMBER: u64 = 18_446_744_073_709_551_614;

/// How many ships a text may have.
pub const MOST_SHIPS: u32 = 65_536;

const SEATS: usize = CALLERS as usize;

/// A write that a store did, and its number among those that it told.
#[derive(PartialEq, Eq, Debug, Drop)]
pub struct Ship {
    /// From 1 to `MAX_NUMBER`.
    pub n: u64,
    /// A put, an add, a tail or a del.
    pub op: Op,
}

/// Why a text isn't ships, or wasn't read.
#[derive(Clone, Copy, PartialEq, Eq, Debug, Error)]
pub enum ShipFault {
    /// The line with this number, counted from 1, is the first that is no ship, or is one too many.
    #[error("bad line {0}")]
    Bad(u32),
    /// Memory was refused.
    #[error("no memory")]
    NoMemory,
}

impl<T: Drop> From<AllocFailed<T>> for ShipFault {
    ghost from_gives = { λ _ fault. fault ≡ NoMemory };

    fn from(_refused: AllocFailed<T>) -> ShipFault {
        ShipFault::NoMemory
    }
}

/// The ships of a text. Contracts see them as their list, of 65,536 at most, each of which a text may have.
#[derive(Debug, Drop)]
pub struct Ships {
    lines: Vec<Ship>,
}

impl Model for Ships {
    ghost use Rattle.std.specs.Prelude.{List};
    ghost use Rattle.ship_text.specs.declared.reading.Ship.{Ship};
    ghost use Rattle.ship_text.specs.Reading.{AreShips};

    ghost Value = { List Ship };

    ghost view = { λ s. s.lines.items };

    ghost invariant = { λ s. AreShips s.lines.items };
}

impl Ships {
    /// The ships in the order of their lines, which need not be that of their numbers.
    pub fn lines(&self) -> &[Ship]
        ensures lines { result.now ≡ self.now }
        ensures each { All IsShip result.now }
        ensures few { length result.now ≤ most_lines }
    {
        &self.lines
    }

    /// The room of one who takes each of them once: the first caller has an entry for each line and one more, nobody else any, and no rows are
    /// asked for.
    pub fn room(&self) -> Room
        ensures first { slice_index result.entries 0 ≡ length self.now + 1 }
        ensures others { (seat : ℕ) → 0 < seat → seat < callers → slice_index result.entries seat ≡ 0 }
        ensures rows { (seat : ℕ) → seat < callers → slice_index result.rows seat ≡ 0 }
        ensures all_entries { sum result.entries ≡ length self.now + 1 }
        ensures few_entries { sum result.entries ≤ most_entries }
        ensures no_rows { sum result.rows ≡ 0 }
    {
        let lines = self.lines();
        let mut entries = [0u32; SEATS];
        entries[0] = lines.len() as u32 + 1;
        Room {
            entries,
            rows: [0u32; SEATS],
        }
    }
}

fn read_ship_number(word: &[u8]) -> Option<u64>
    ensures { Reads (Spells decimal (λ n. (1 ≤ n) × (n ≤ most_number))) word.now result }
{
    let number = read_number(word)?;
    if number == 0 || MAX_NUMBER < number {
        return None;
    }
    Some(number)
}

// No single write weighs as much as a ship may, so the weight needs no test.
fn read_load(bytes: &[u8]) -> Option<Op>
    ensures { Reads (Spells command_text IsLoad) bytes.now result }
{
    let op = read_command(bytes)?;
    if op.is_write() && !op.looks_first() {
        Some(op)
    } else {
        None
    }
}

// The number of a ship, and its write.
fn read_numbered(bytes: &[u8]) -> Option<Ship>
    ensures { Reads IsNumbered bytes.now result }
{
    let (number, rest) = cut(bytes, b' ');
    let rest = rest?;
    let n = read_ship_number(number)?;
    let op = read_load(rest)?;
    Some(Ship { n, op })
}

// Whether it is the first word of a ship.
fn is_ship(word: &[u8]) -> bool
    ensures { IsTrue result ↔ (word.now ≡ codes "ship") }
{
    matches!(word, b"ship")
}

// The ship that the bytes spell, without the line's end, if they spell one.
fn read_ship(bytes: &[u8]) -> Option<Ship>
    ensures { Reads IsShipLine bytes.now result }
{
    let (word, rest) = cut(bytes, b' ');
    if !is_ship(word) {
        return None;
    }
    read_numbered(rest?)
}

// The ships that the text spells.
fn read_lines(alloc: Global, text: &[u8]) -> Result<Vec<Ship>, ShipFault>
    ensures ships { IfOk result (λ ships. AreShipsOf text.now ships.items) }
    ensures bad { IfBad result (IsBadShip text.now) }
{
    let mut ships = Vec::new(alloc);
    let mut rest = text;
    while !rest.is_empty() {
        let number = ships.len() as u32 + 1;
        let (bytes, behind) = cut(rest, b'\n');
        if number > MOST_SHIPS {
            return Err(ShipFault::Bad(number));
        }
        let ship = match read_ship(bytes) {
            Some(ship) => ship,
            None => return Err(ShipFault::Bad(number)),
        };
        ships.push(ship)?;
        rest = remainder(behind);
    }
    Ok(ships)
}

/// Reads ships, one a line. `Bad` says which line is the first that is wrong; a text without a wrong line is ships.
/// A text has one reading: no other ships, and no other bad line, are to be read in it.
pub fn read_ships(alloc: Global, text: &[u8]) -> Result<Ships, ShipFault>
    ensures ships { IfOk result (λ ships. AreShipsOf text.now ships) }
    ensures only_ships { IfOk result (λ ships. AreOnlyShips text.now ships) }
    ensures bad { IfBad result (IsBadShip text.now) }
    ensures only_bad { IfBad result (IsOnlyBadShip text.now) }
{
    let lines = read_lines(alloc, text)?;
    Ok(Ships { lines })
}

/// Does nothing, and stands for its clause: the ships that are printed of a history, whose commands a script may have, are read as themselves.
pub fn printed_is_read()
    ensures { (first : ℕ) (entries : List Entry) → 1 ≤ first → first ≤ most_first → length entries ≤ most_lines → All (λ e. IsCommand e.op) entries → AreShipsOf (printed_ships first entries) (ships_told first entries) }
{}
