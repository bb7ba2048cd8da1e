//! The history of a run, in memory that is reserved before it.
ghost use Rattle.std.specs.Prelude.{◌≡◌, ◌+◌, ◌<◌, ◌≤◌, ◌^◌, ◌++◌, [], ◌==◌, length, sum, slice_index, vec_capacity, IfOk, IfSome, IsNone};
ghost use Rattle.blsm_model.specs.Format.{most_entries, most_rows, most_rows_asked};
ghost use Rattle.blsm_model.specs.Book.{HasRoom, noted, counted_up, entry_at, rows_given};
ghost use Rattle.blsm_model.specs.Stored.{as_reply, stored_reply, FitsRows};
ghost use Rattle.blsm_model.specs.declared.history.Reply.TheVariants.{Rows};

use crate::{Entry, Op, Reply, Room, Row, RowList, ShortReply};
use refusal::NoMemory;
use std::alloc::Global;
use std::marker::Model;

// A reply, whose rows lie in the list of all rows: from the first place on, without the second.
#[derive(Drop)]
enum StoredReply {
    Rows(usize, usize),
    Short(ShortReply),
}

#[derive(Drop)]
struct StoredEntry {
    seat: u32,
    op: Op,
    reply: StoredReply,
}

/// The entries of a run, the quanta of each, and the room that is left at each seat.
///
/// Places are counted from 0. The entries only grow. Nothing but `reserve` takes memory: a reply's rows are copied
/// into one list of all rows, so that an entry takes no more than its own bytes.
#[derive(Drop)]
pub struct Annals {
    stored: Vec<StoredEntry>,
    rows: Vec<Row>,
    quanta: Vec<u64>,
    room: Room,
}

impl Model for Annals {
    ghost use Rattle.std.specs.Prelude.{map, vec_capacity};
    ghost use Rattle.blsm_model.specs.Format.{most_entries, most_rows, most_rows_asked};
    ghost use Rattle.blsm_model.specs.Book.{Book};

    ghost Value = { Book };

    ghost use Rattle.blsm_model.specs.Stored.{stored_entry, IsStored};

    ghost view = { λ a. record { entries = map (stored_entry a.rows.items) a.stored.items; quanta = a.quanta.items; room = a.room } };

    ghost invariant = { λ a. IsStored a.stored.items a.rows.items a.quanta.items a.room (vec_capacity a.stored) (vec_capacity a.rows) (vec_capacity a.quanta) };
}

impl Annals {
    /// Annals with this room, and nothing noted. `NoMemory` where memory is refused.
    pub fn reserve(alloc: Global, room: Room) -> Result<Annals, NoMemory>
        requires entries { sum room.entries ≤ most_entries }
        requires rows { sum room.rows ≤ most_rows_asked }
        ensures { IfOk result (λ annals. annals ≡ record { entries = []; quanta = []; room = room }) }
    {
        Ok(Annals {
            stored: Vec::with_capacity(alloc, total(&room.entries))?,
            rows: Vec::with_capacity(alloc, total(&room.rows))?,
            quanta: Vec::with_capacity(alloc, total(&room.entries))?,
            room,
        })
    }

    /// Notes an entry at the end, with 0 quanta, and lowers its seat's room by one entry and by the rows that it gives.
    pub fn note(&mut self, entry: Entry)
        requires { HasRoom self.old.room entry }
        ensures { self.new ≡ noted self.old entry }
    {
        let Entry { seat, op, reply } = entry;
        let count = given(&reply);
        let reply = keep(&mut self.rows, reply);
        self.stored.push_reserved(StoredEntry { seat, op, reply });
        self.quanta.push_reserved(0);
        self.room.entries[seat as usize] -= 1;
        self.room.rows[seat as usize] -= count;
    }

    // An entry takes a kilobyte, and a call would copy it once more.
    /// Notes an entry whose reply gives no rows, as `note` does.
    #[inline(always)]
    pub fn note_short(&mut self, seat: u32, op: Op, reply: ShortReply)
        requires { HasRoom self.old.room (record { seat = seat; op = op; reply = as_reply reply }) }
        ensures { self.new ≡ noted self.old (record { seat = seat; op = op; reply = as_reply reply }) }
    {
        let at = seat as usize;
        let reply = StoredReply::Short(reply);
        self.stored.push_reserved(StoredEntry { seat, op, reply });
        self.quanta.push_reserved(0);
        self.room.entries[at] -= 1;
    }

    /// Notes an entry whose reply gives these rows, as `note` does. They are copied once, to where they lie in the history.
    pub fn note_rows(&mut self, seat: u32, op: Op, rows: &[Row])
        requires few { length rows.now ≤ most_rows }
        requires room { HasRoom self.old.room (record { seat = seat; op = op; reply = Rows rows.now }) }
        ensures { self.new ≡ noted self.old (record { seat = seat; op = op; reply = Rows rows.now }) }
    {
        let count = rows.len() as u32;
        let reply = keep_rows(&mut self.rows, rows);
        self.stored.push_reserved(StoredEntry { seat, op, reply });
        self.quanta.push_reserved(0);
        self.room.entries[seat as usize] -= 1;
        self.room.rows[seat as usize] -= count;
    }

    /// Raises the quanta of the entry at a place by `n`.
    pub fn count(&mut self, place: u32, n: u64)
        requires place { place < length self.old.entries }
        requires sum { slice_index self.old.quanta place + n < 2 ^ 64 }
        ensures { self.new ≡ counted_up self.old place n }
    {
        self.quanta[place as usize] += n;
    }

    /// How many entries there are, of which each has its quanta.
    pub fn len(&self) -> usize
        ensures entries { result ≡ length self.now.entries }
        ensures quanta { result ≡ length self.now.quanta }
        ensures few { result ≤ most_entries }
    {
        self.stored.len()
    }

    /// Whether there is no entry.
    pub fn is_empty(&self) -> bool
        ensures { result ≡ (length self.now.entries == 0) }
    {
        self.stored.is_empty()
    }

    /// The seat of the entry at a place.
    pub fn seat(&self, place: u32) -> u32
        requires { place < length self.now.entries }
        ensures { result ≡ (entry_at self.now place).seat }
    {
        self.stored[place as usize].seat
    }

    /// The command of the entry at a place.
    pub fn op(&self, place: u32) -> &Op
        requires { place < length self.now.entries }
        ensures { result.now ≡ (entry_at self.now place).op }
    {
        &self.stored[place as usize].op
    }

    /// The reply of the entry at a place, with copies of its rows.
    pub fn reply(&self, place: u32) -> Reply
        requires { place < length self.now.entries }
        ensures { result ≡ (entry_at self.now place).reply }
    {
        tell(&self.stored[place as usize].reply, &self.rows)
    }

    /// The reply of the entry at a place, if it gives no rows.
    pub fn short_reply(&self, place: u32) -> Option<&ShortReply>
        requires { place < length self.now.entries }
        ensures some { IfSome result (λ reply. as_reply reply.now ≡ (entry_at self.now place).reply) }
        ensures none { IsNone result → (entry_at self.now place).reply ≡ Rows (rows_given (entry_at self.now place).reply) }
    {
        match &self.stored[place as usize].reply {
            StoredReply::Rows(_, _) => None,
            StoredReply::Short(reply) => Some(reply),
        }
    }

    /// The rows that the reply of the entry at a place gives.
    pub fn rows(&self, place: u32) -> &[Row]
        requires { place < length self.now.entries }
        ensures { result.now ≡ rows_given (entry_at self.now place).reply }
    {
        match self.stored[place as usize].reply {
            StoredReply::Rows(first, end) => &self.rows[first..end],
            StoredReply::Short(_) => &[],
        }
    }

    /// The quanta of the entry at a place.
    pub fn quanta(&self, place: u32) -> u64
        requires { place < length self.now.entries }
        ensures { result ≡ slice_index self.now.quanta place }
    {
        self.quanta[place as usize]
    }

    /// How many entries and rows each seat may still note.
    pub fn room(&self) -> Room
        ensures { result ≡ self.now.room }
    {
        self.room
    }
}

// How many rows a reply gives.
fn given(reply: &Reply) -> u32
    ensures { result ≡ length (rows_given reply.now) }
{
    match reply {
        Reply::Rows(rows) => rows.as_slice().len() as u32,
        _ => 0,
    }
}

// The reply without its rows, which go to the end of the list.
fn keep(rows: &mut Vec<Row>, reply: Reply) -> StoredReply
    requires { length rows.old.items + length (rows_given reply) ≤ vec_capacity rows.old }
    ensures rows { rows.new.items ≡ rows.old.items ++ rows_given reply }
    ensures capacity { vec_capacity rows.new ≡ vec_capacity rows.old }
    ensures told { stored_reply rows.new.items result ≡ reply }
    ensures fits { FitsRows rows.new.items result }
{
    match reply {
        Reply::Rows(list) => keep_rows(rows, list.as_slice()),
        Reply::Done => StoredReply::Short(ShortReply::Done),
        Reply::Is(value) => StoredReply::Short(ShortReply::Is(value)),
        Reply::Absent => StoredReply::Short(ShortReply::Absent),
        Reply::Kept(value) => StoredReply::Short(ShortReply::Kept(value)),
        Reply::Held => StoredReply::Short(ShortReply::Held),
        Reply::NoHold => StoredReply::Short(ShortReply::NoHold),
        Reply::Did(turns) => StoredReply::Short(ShortReply::Did(turns)),
        Reply::Full(charge) => StoredReply::Short(ShortReply::Full(charge)),
        Reply::NoMemory => StoredReply::Short(ShortReply::NoMemory),
        Reply::FaultLost => StoredReply::Short(ShortReply::FaultLost),
        Reply::FaultUnsure => StoredReply::Short(ShortReply::FaultUnsure),
        Reply::Fault => StoredReply::Short(ShortReply::Fault),
        Reply::Damaged(page) => StoredReply::Short(ShortReply::Damaged(page)),
        Reply::Stopped(why) => StoredReply::Short(ShortReply::Stopped(why)),
    }
}

// The reply that gives these rows, which go to the end of the list.
fn keep_rows(rows: &mut Vec<Row>, more: &[Row]) -> StoredReply
    requires room { length rows.old.items + length more.now ≤ vec_capacity rows.old }
    requires few { length more.now ≤ most_rows }
    ensures rows { rows.new.items ≡ rows.old.items ++ more.now }
    ensures capacity { vec_capacity rows.new ≡ vec_capacity rows.old }
    ensures told { stored_reply rows.new.items result ≡ Rows more.now }
    ensures fits { FitsRows rows.new.items result }
{
    let first = rows.len();
    append(rows, more);
    StoredReply::Rows(first, rows.len())
}

// The reply with its rows again.
fn tell(reply: &StoredReply, rows: &[Row]) -> Reply
    requires { FitsRows rows.now reply.now }
    ensures { result ≡ stored_reply rows.now reply.now }
{
    match reply {
        StoredReply::Rows(first, end) => Reply::Rows(RowList::from_slice(&rows[*first..*end])),
        StoredReply::Short(reply) => reply.to_reply(),
    }
}

// Puts rows at the end, in memory that is there.
fn append(rows: &mut Vec<Row>, more: &[Row])
    requires { length rows.old.items + length more.now ≤ vec_capacity rows.old }
    ensures rows { rows.new.items ≡ rows.old.items ++ more.now }
    ensures capacity { vec_capacity rows.new ≡ vec_capacity rows.old }
{
    for row in more {
        rows.push_reserved(row.copy());
    }
}

// The room of all seats together.
fn total(room: &[u32]) -> usize
    requires { sum room.now ≤ most_rows_asked }
    ensures { result ≡ sum room.now }
{
    let mut all = 0usize;
    for of_seat in room {
        all += *of_seat as usize;
    }
    all
}
