//! The book.
ghost use Rattle.std.specs.Prelude.{◌≡◌, ℕ, ◌+◌, ◌-◌, ◌<◌, ◌≤◌, ◌^◌, ◌&&◌, [], IsTrue, if◌then◌else◌, length, sum, take, drop, option_map, slice_index, slice_set};
ghost use Rattle.blsm_model.specs.Format.{callers, most_rows, most_turns};
ghost use Rattle.blsm_model.specs.Book.{HasRoom};
ghost use Rattle.blsm_model.specs.Stored.{as_reply};
ghost use Rattle.blsm_model.specs.Histories.{is_done};
ghost use Rattle.blsm_model.specs.Legal.{is_write};
ghost use Rattle.blsm_model.specs.declared.history.Reply.TheVariants.{Rows, Stopped};
ghost use Rattle.tree_machine.specs.Machine.{all_true, seats};
ghost use Rattle.tree_machine.specs.Steps.{last_write, work_reply};
ghost use Rattle.tree_machine.specs.Plays.{has_room};
ghost use Rattle.seat_book.specs.Turns.{turned_of};
ghost use Rattle.seat_book.specs.Places.{HasWrite, HasPlaces};
ghost use Rattle.seat_book.specs.State.{opened_in, work_in, is_closed_in, may_note_in, may_turn_in, may_end_in, totals_in, noted_in, stopped_in, peaked_in, pass_counted_in, deep_counted_in, quantum_counted_in, paid_in, turned_in, helped_in, ended_in, left_in};

use crate::Turned;
use crate::work::Work;
use blsm_model::{Annals, CALLERS, Op, Row, ShortReply, Totals, Why};
use std::marker::Model;

const ALL_SEATS: usize = 24;

const CALLER_SEATS: usize = CALLERS as usize;

const WORKERS: usize = ALL_SEATS - CALLER_SEATS;

/// What the seats did, the history, the counts of the run, and why it stopped.
///
/// Seats are numbered from 0: callers below 16, and then eight workers. The value is 1,240 bytes large, of which the callers' works
/// take 640.
#[derive(Drop)]
pub struct SeatBook {
    annals: Annals,
    work: [Work; CALLER_SEATS],
    left: [bool; CALLER_SEATS],
    turns: [u64; WORKERS],
    quanta: [u64; ALL_SEATS],
    // Where each caller's last write that was done stands among the entries.
    last_writes: [u32; CALLER_SEATS],
    charge: u64,
    faults: u64,
    peak: u64,
    passes: u64,
    deeps: u64,
    stopped: Option<Why>,
}

impl Model for SeatBook {
    ghost use Rattle.seat_book.specs.State.{BookState};
    ghost use Rattle.seat_book.specs.Places.{AreKept};

    ghost Value = { BookState };

    ghost view = { λ b. record {
      book = b.annals;
      seats = record { work = b.work; left = b.left; turns = b.turns; quanta = b.quanta };
      counts = record { charge = b.charge; faults = b.faults; peak = b.peak; passes = b.passes; deeps = b.deeps };
      stopped = b.stopped;
    } };

    ghost invariant = { λ b. AreKept b.last_writes b.annals.entries b.work b.left b.turns b.quanta };
}

// Whether an entry is a write that was done.
fn is_done_write(op: &Op, reply: &ShortReply) -> bool
    ensures { result ≡ (is_done (as_reply reply.now) && is_write op.now) }
{
    matches!(reply, ShortReply::Done) && op.is_write()
}

// The places of the last writes after an entry at this place.
fn place_write(places: &mut [u32; CALLER_SEATS], seat: u32, is_write: bool, place: u32)
    requires { seat < callers }
    ensures { places.new ≡ (if is_write then slice_set places.old seat place else places.old) }
{
    if is_write {
        places[seat as usize] = place;
    }
}

// Whether all are true.
fn all_true(marks: &[bool]) -> bool
    ensures { result ≡ all_true marks.now }
{
    for mark in marks {
        if !*mark {
            return false;
        }
    }
    true
}

// The sum of these numbers.
fn total(numbers: &[u64]) -> u64
    requires { sum numbers.now < 2 ^ 64 }
    ensures { result ≡ sum numbers.now }
{
    let mut all = 0;
    for number in numbers {
        all += *number;
    }
    all
}

// The sum of the numbers behind those of callers.
fn workers_total(numbers: &[u64; ALL_SEATS]) -> u64
    requires { sum numbers.now < 2 ^ 64 }
    ensures { result ≡ sum (drop callers numbers.now) }
{
    total(&numbers[CALLER_SEATS..])
}

impl SeatBook {
    /// The book of a tree that was just opened, when all its components weighed `charge` bytes together and the disk had counted so
    /// many faults.
    pub fn open(annals: Annals, charge: u64, faults: u64) -> SeatBook
        requires { annals.entries ≡ [] }
        ensures { result ≡ opened_in annals charge faults }
    {
        SeatBook {
            annals,
            work: [Work::none(); CALLER_SEATS],
            left: [false; CALLER_SEATS],
            turns: [0; WORKERS],
            quanta: [0; ALL_SEATS],
            last_writes: [0; CALLER_SEATS],
            charge,
            faults,
            peak: 0,
            passes: 0,
            deeps: 0,
            stopped: None,
        }
    }

    /// Why the tree is stopped, if it is.
    pub fn stopped(&self) -> Option<Why>
        ensures { result ≡ self.now.stopped }
    {
        self.stopped
    }

    /// What a stopped tree replies to each command but a work that stopped it.
    pub fn stopped_reply(&self) -> Option<ShortReply>
        ensures { option_map as_reply result ≡ option_map Stopped self.now.stopped }
    {
        match self.stopped {
            Some(why) => Some(ShortReply::Stopped(why)),
            None => None,
        }
    }

    /// Whether all callers left.
    pub fn is_closed(&self) -> bool
        ensures { result ≡ is_closed_in self.now }
    {
        all_true(&self.left)
    }

    /// The history, the quanta of each entry, and the room that is left.
    pub fn annals(&self) -> &Annals
        ensures { result.now ≡ self.now.book }
    {
        &self.annals
    }

    /// How many entries the history has.
    pub fn entries(&self) -> u64
        ensures entries { result ≡ length self.now.book.entries }
        ensures places { HasPlaces self.now }
    {
        self.annals.len() as u64
    }

    /// The greatest weight of the memory table at the end of any step, in bytes.
    pub fn peak(&self) -> u64
        ensures { result ≡ self.now.counts.peak }
    {
        self.peak
    }

    /// What all components weighed together at the opening, in bytes.
    pub fn charge_at_opening(&self) -> u64
        ensures { result ≡ self.now.counts.charge }
    {
        self.charge
    }

    /// The disk's count of faults at the opening.
    pub fn faults_at_opening(&self) -> u64
        ensures { result ≡ self.now.counts.faults }
    {
        self.faults
    }

    /// How many turns a caller's open work had so far.
    pub fn turns(&self, seat: u32) -> u32
        requires { seat < callers }
        ensures { result ≡ (work_in seat self.now).turns }
    {
        self.work[seat as usize].turns()
    }

    /// How many turns a worker had, 2^64 - 1 at most.
    pub fn worker_turns(&self, seat: u32) -> u64
        requires { (callers ≤ seat) × (seat < seats) }
        ensures { result ≡ slice_index self.now.seats.turns (seat - callers) }
    {
        self.turns[(seat - CALLERS) as usize]
    }

    // Whether a caller has room for one entry more, and for so many rows.
    fn has_room(&self, seat: u32, rows: u32) -> bool
        requires { seat < callers }
        ensures { result ≡ has_room self.now.book.room seat rows }
    {
        let room = self.annals.room();
        0 < room.entries[seat as usize] && rows <= room.rows[seat as usize]
    }

    /// Whether the seat is a caller's, has room for an entry that gives so many rows, and has no open work.
    pub fn may_note(&self, seat: u32, rows: u32) -> bool
        ensures { result ≡ may_note_in seat rows self.now }
    {
        seat < CALLERS && self.has_room(seat, rows) && self.turns(seat) == 0
    }

    /// Whether the seat is a caller's, and its open work had fewer than 100,000 turns.
    pub fn may_turn(&self, seat: u32) -> bool
        ensures { result ≡ may_turn_in seat self.now }
    {
        seat < CALLERS && self.turns(seat) < Work::MOST_TURNS
    }

    /// Whether the seat is a caller's, its work of `n` turns is finished, and it has room for the entry.
    pub fn may_end(&self, seat: u32, n: u32) -> bool
        ensures { result ≡ may_end_in seat n self.now }
    {
        seat < CALLERS && self.has_room(seat, 0) && self.work[seat as usize].is_finished(n)
    }

    /// The numbers of the run so far. `high` is what the memory table may weigh, and `charge` what all weighs now, in bytes.
    pub fn totals(&self, high: u64, charge: u64) -> Totals
        requires { sum self.now.seats.quanta < 2 ^ 64 }
        ensures { result ≡ totals_in high charge self.now }
    {
        Totals {
            peak: self.peak,
            high,
            callers: total(&self.quanta[..CALLER_SEATS]),
            workers: workers_total(&self.quanta),
            passes: self.passes,
            deeps: self.deeps,
            charge,
            stopped: self.stopped,
        }
    }

    /// The annals, when the run is over.
    pub fn into_annals(self) -> Annals
        ensures { result ≡ self.book }
    {
        self.annals
    }

    // An entry takes a kilobyte, and a call would copy it once more.
    /// Notes an entry whose reply gives no rows.
    #[inline(always)]
    pub fn note(&mut self, seat: u32, op: Op, reply: ShortReply)
        requires { HasRoom self.old.book.room (record { seat = seat; op = op; reply = as_reply reply }) }
        ensures { self.new ≡ noted_in seat op (as_reply reply) self.old }
    {
        let is_write = is_done_write(&op, &reply);
        let place = self.annals.len() as u32;
        place_write(&mut self.last_writes, seat, is_write, place);
        self.annals.note_short(seat, op, reply);
    }

    /// Notes an entry whose reply gives these rows.
    pub fn note_rows(&mut self, seat: u32, op: Op, rows: &[Row])
        requires few { length rows.now ≤ most_rows }
        requires room { HasRoom self.old.book.room (record { seat = seat; op = op; reply = Rows rows.now }) }
        ensures { self.new ≡ noted_in seat op (Rows rows.now) self.old }
    {
        self.annals.note_rows(seat, op, rows);
    }

    /// Stops the tree for this cause.
    pub fn stop(&mut self, why: Why)
        ensures { self.new ≡ stopped_in why self.old }
    {
        self.stopped = Some(why);
    }

    /// The memory table weighs so many bytes at the end of a step.
    pub fn raise_peak(&mut self, weight: u64)
        ensures { self.new ≡ peaked_in weight self.old }
    {
        self.peak = self.peak.max(weight);
    }

    /// A pass was swapped in.
    pub fn count_pass(&mut self)
        requires { self.old.counts.passes + 1 < 2 ^ 64 }
        ensures { self.new ≡ pass_counted_in self.old }
    {
        self.passes += 1;
    }

    /// A deep merge was swapped in.
    pub fn count_deep(&mut self)
        requires { self.old.counts.deeps + 1 < 2 ^ 64 }
        ensures { self.new ≡ deep_counted_in self.old }
    {
        self.deeps += 1;
    }

    /// The seat, a caller's or a worker's, did a quantum.
    pub fn count_quantum(&mut self, seat: u32)
        requires seat { seat < seats }
        requires fits { sum self.old.seats.quanta + 1 < 2 ^ 64 }
        ensures { self.new ≡ quantum_counted_in seat self.old }
    {
        self.quanta[seat as usize] += 1;
    }

    /// A quantum counts to the entry of the caller's last write that was done.
    pub fn count_for_write(&mut self, seat: u32)
        requires seat { seat < callers }
        requires written { HasWrite seat self.old.book }
        requires fits { sum self.old.book.quanta + 1 < 2 ^ 64 }
        ensures { self.new ≡ paid_in seat self.old }
    {
        self.annals.count(self.last_writes[seat as usize], 1);
    }

    /// A turn of a caller's work ended so, and took so many quanta.
    pub fn turn(&mut self, seat: u32, ended: Turned, quanta: u32)
        requires open { IsTrue (may_turn_in seat self.old) }
        requires quanta { quanta ≤ 1 }
        ensures { self.new ≡ turned_in seat (turned_of ended) quanta self.old }
    {
        let at = seat as usize;
        self.work[at] = self.work[at].with_ended(ended, quanta);
    }

    /// A turn of a worker's ended. Turns count up to 2^64 - 1, and stand there.
    pub fn worker_turn(&mut self, seat: u32)
        requires { (callers ≤ seat) × (seat < seats) }
        ensures { self.new ≡ helped_in seat self.old }
    {
        let place = (seat - CALLERS) as usize;
        self.turns[place] = self.turns[place].saturating_add(1);
    }

    /// Notes the end of a caller's work of `n` turns, and gives its reply. The entry has the quanta of the work.
    pub fn end_work(&mut self, seat: u32, n: u32) -> ShortReply
        requires { IsTrue (may_end_in seat n self.old) }
        ensures reply { as_reply result ≡ work_reply (work_in seat self.old) self.old.stopped }
        ensures book { self.new ≡ ended_in seat n self.old }
    {
        let at = seat as usize;
        let work = self.work[at];
        let place = self.annals.len() as u32;
        self.note(seat, Op::Work(n), work.reply(self.stopped));
        self.annals.count(place, u64::from(work.quanta()));
        self.work[at] = Work::none();
        work.reply(self.stopped)
    }

    /// A caller leaves.
    pub fn leave(&mut self, seat: u32)
        requires { seat < callers }
        ensures { self.new ≡ left_in seat self.old }
    {
        self.left[seat as usize] = true;
    }
}
