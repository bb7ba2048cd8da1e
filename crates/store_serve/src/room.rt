//! The room of a session.
ghost use Rattle.std.specs.Prelude.{◌≡◌, ◌≤◌, ◌<◌, ◌↔◌, IsTrue, sum};
ghost use Rattle.blsm_model.specs.Format.{callers, most_lines, most_rows_asked};
ghost use Rattle.blsm_model.specs.Scripts.{rows_of};
ghost use Rattle.store_serve.specs.Room.{HasRoomForLine, room_for};

use blsm_model::{CALLERS, Line, Room};
use script_text::{MOST_LINES, MOST_ROWS_ASKED, count_rows};

const SEATS: usize = CALLERS as usize;

/// The room of a session of the callers up to this one, counted from 1: the room of a script, dealt out evenly among them and rounded down.
pub fn share(count: u32) -> Room
    requires some { 1 ≤ count }
    requires few { count ≤ callers }
    ensures room { result ≡ room_for count }
    ensures entries { sum result.entries ≤ most_lines }
    ensures rows { sum result.rows ≤ most_rows_asked }
{
    let mut room = Room {
        entries: [0; SEATS],
        rows: [0; SEATS],
    };
    for at in 0..count as usize {
        room.entries[at] = MOST_LINES / count;
        room.rows[at] = MOST_ROWS_ASKED / count;
    }
    room
}

/// Whether a line's caller has room for its entry and for the rows that it asks.
pub(crate) fn has_room(room: &Room, line: &Line) -> bool
    requires { line.now.seat < callers }
    ensures { IsTrue result ↔ HasRoomForLine room.now line.now }
{
    let at = line.seat as usize;
    0 < room.entries[at] && count_rows(&line.op) <= room.rows[at]
}
