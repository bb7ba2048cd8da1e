// A plain judge of histories: the list of the writes, and the rows that each caller holds, entry by entry.
use crate::asserts::{assert_same, assert_that};
use blsm_model::{Annals, CALLERS, Key, Line, Op, Reply, Row, Value, Why, Write, value_of};
use disk_mem::MemDisk;
use disk_trait::Disk;
use std::alloc::Global;
use std::process::Abort;

// The rows of a hold, and how many of them were given.
#[derive(Drop)]
struct Held {
    rows: Vec<Row>,
    given: usize,
}

// Up to which charge a store of the least size takes a write, and a del, in bytes.
const MOST: u64 = 121_856;

const MOST_OF_DELS: u64 = 139_264;

/// The writes that were done, in order, what each caller holds, and how the store failed.
#[derive(Drop)]
pub struct Judge {
    writes: Vec<Write>,
    // The same, with the write that may be there or not.
    tried: Vec<Write>,
    held: Vec<Option<Held>>,
    // What the writes weigh that were done, in bytes.
    charge: u64,
    // How many lookups and nexts failed, and lookups of a new or a swap.
    faults: u64,
    // Why the store stopped, whether a reply told of it, and whether one was that of the command whose call failed then.
    stopped: Option<Why>,
    is_told: bool,
    is_met: bool,
}

// Puts a row in its place by its key, where no row has the key.
fn place(rt: &impl Abort, rows: &mut Vec<Row>, row: Row) {
    let mut at: usize = 0;
    for other in rows.iter() {
        if other.key == row.key {
            return;
        }
        if other.key < row.key {
            at = at.saturating_add(1);
        }
    }
    assert!(rt; at <= rows.len());
    assert_that(rt, rows.insert(at, row).is_ok());
}

// Whether lookups found what these writes left.
fn have_found(writes: &[Write], annals: &Annals) -> bool {
    let count = annals.len() as u32;
    for place in 0..count {
        if let Op::Get(key) = annals.op(place) {
            let wanted = match value_of(writes, key) {
                Some(value) => Reply::Is(value),
                None => Reply::Absent,
            };
            if annals.reply(place) != wanted {
                return false;
            }
        }
    }
    true
}

// The rows of a range after these writes.
fn rows_of(rt: &impl Abort, alloc: Global, writes: &[Write], low: &Key, high: &Key) -> Vec<Row> {
    let mut rows = Vec::new(alloc);
    for write in writes {
        let key = write.key();
        if key < low || key >= high {
            continue;
        }
        if let Some(value) = value_of(writes, key) {
            place(
                rt,
                &mut rows,
                Row {
                    key: key.copy(),
                    value,
                },
            );
        }
    }
    rows
}

impl Held {
    // The next rows are given: so many, or those that are left.
    fn give(&mut self, rt: &impl Abort, n: u32, given: &[Row]) {
        let left = self
            .rows
            .get(self.given..)
            .expect(rt, "no more rows than there are");
        let some = left.len().min(n as usize);
        assert_that(rt, left.get(..some).expect(rt, "so many") == given);
        self.given = self.given.saturating_add(some);
    }
}

impl Judge {
    /// A judge of a run over a new store, which this stopped.
    pub fn new(rt: &impl Abort, alloc: Global, stopped: Option<Why>) -> Judge {
        let mut held = Vec::new(alloc);
        for _ in 0..CALLERS {
            assert_that(rt, held.push(None).is_ok());
        }
        Judge {
            writes: Vec::new(alloc),
            tried: Vec::new(alloc),
            held,
            charge: 0,
            faults: 0,
            stopped,
            is_told: false,
            is_met: false,
        }
    }

    fn hold(&mut self, rt: &impl Abort, alloc: Global, seat: u32, low: &Key, high: &Key) {
        let rows = rows_of(rt, alloc, &self.writes, low, high);
        let held = self.held.get_mut(seat as usize).expect(rt, "a caller");
        *held = Some(Held { rows, given: 0 });
    }

    fn next(&mut self, rt: &impl Abort, seat: u32, n: u32, reply: &Reply) {
        match self.held.get_mut(seat as usize).expect(rt, "a caller") {
            Some(held) => match reply {
                Reply::Rows(rows) => held.give(rt, n, rows.as_slice()),
                _ => rt.abort(),
            },
            None => assert_that(rt, *reply == Reply::NoHold),
        }
    }

    fn release(&mut self, rt: &impl Abort, seat: u32, reply: &Reply) {
        let held = self.held.get_mut(seat as usize).expect(rt, "a caller");
        match held {
            Some(_) => assert_that(rt, *reply == Reply::Done),
            None => assert_that(rt, *reply == Reply::NoHold),
        }
        *held = None;
    }

    fn get(&self, rt: &impl Abort, key: &Key, reply: &Reply) {
        match value_of(&self.writes, key) {
            Some(value) => assert_that(rt, *reply == Reply::Is(value)),
            None => assert_that(rt, *reply == Reply::Absent),
        }
    }

    // What a write finds that looks first and is kept out by it.
    fn bar(&self, op: &Op) -> Option<Option<Value>> {
        match op {
            Op::New(key, _) => match value_of(&self.writes, key) {
                None => None,
                found => Some(found),
            },
            Op::Swap(key, count, _) => match value_of(&self.writes, key) {
                Some(value) if value.count == *count => None,
                found => Some(found),
            },
            _ => None,
        }
    }

    // A write was done.
    fn write(&mut self, rt: &impl Abort, op: &Op) {
        assert_that(rt, op.is_write());
        self.charge = self.charge.saturating_add(op.weight());
        assert_that(rt, self.writes.push(op.write()).is_ok());
        assert_that(rt, self.tried.push(op.write()).is_ok());
    }

    // A write is refused for its size, at a charge that may have fallen by merges since the writes.
    fn refuse(&self, rt: &impl Abort, op: &Op, charge: u64) {
        assert_that(rt, op.is_write());
        let most = match op {
            Op::Del(_) => MOST_OF_DELS,
            _ => MOST,
        };
        assert_that(rt, charge <= self.charge);
        assert_that(rt, charge.saturating_add(op.weight()) > most);
    }

    // A write is kept out exactly where it looks first and its condition fails; else it is done, or refused for its size.
    fn answer_write(&mut self, rt: &impl Abort, op: &Op, reply: &Reply) {
        match (self.bar(op), reply) {
            (Some(found), _) => assert_that(rt, *reply == Reply::Kept(found)),
            (None, Reply::Full(charge)) => self.refuse(rt, op, *charge),
            (None, _) => {
                assert_that(rt, *reply == Reply::Done);
                self.write(rt, op);
            }
        }
    }

    // A write failed, which nothing had kept out: the store stops.
    fn lose_write(&mut self, rt: &impl Abort, op: &Op) {
        assert_that(rt, self.bar(op).is_none());
        self.stop(rt);
    }

    // One that may be there or not.
    fn try_write(&mut self, rt: &impl Abort, op: &Op) {
        assert_that(rt, op.is_write());
        self.lose_write(rt, op);
        assert_that(rt, self.tried.push(op.write()).is_ok());
    }

    // The first reply that tells of the stop.
    fn stop(&mut self, rt: &impl Abort) {
        assert_that(rt, !self.is_told);
        self.meet_stop(rt);
    }

    // A command's call failed, and the store stopped. A work's entry comes when its caller has the lock again, and others may be told before.
    fn meet_stop(&mut self, rt: &impl Abort) {
        assert_that(rt, !self.is_met);
        self.is_met = true;
        self.is_told = true;
    }

    // Whether a reply tells of a call that failed, or of the stop, as each does from then on.
    fn fails(&mut self, rt: &impl Abort, op: &Op, reply: &Reply) -> bool {
        match (op, reply) {
            (_, Reply::Stopped(why)) => {
                assert_same(rt, self.stopped, Some(*why));
                self.is_told = true;
            }
            (Op::Get(_) | Op::Next(_) | Op::New(..) | Op::Swap(..), Reply::Fault) => {
                assert_that(rt, !self.is_told);
                self.faults = self.faults.saturating_add(1);
            }
            (Op::Work(_), Reply::Fault) => self.meet_stop(rt),
            (_, Reply::FaultLost) if op.is_write() => self.lose_write(rt, op),
            (_, Reply::FaultUnsure) if op.is_write() => self.try_write(rt, op),
            _ => return false,
        }
        true
    }

    // The reply is right, and the map is that after the command.
    fn judge(&mut self, rt: &impl Abort, alloc: Global, seat: u32, op: &Op, reply: &Reply) {
        if self.fails(rt, op, reply) {
            return;
        }
        assert_that(rt, !self.is_told);
        match op {
            Op::Get(key) => self.get(rt, key, reply),
            Op::Hold(low, high) => {
                assert_that(rt, *reply == Reply::Held);
                self.hold(rt, alloc, seat, low, high);
            }
            Op::Next(n) => self.next(rt, seat, *n, reply),
            Op::Release => self.release(rt, seat, reply),
            Op::Work(n) => match reply {
                Reply::Did(turns) => assert!(rt; turns <= n),
                _ => rt.abort(),
            },
            _ => self.answer_write(rt, op, reply),
        }
    }

    /// Goes on by the entries of a history, each of whose replies is right.
    pub fn judge_all(&mut self, rt: &impl Abort, alloc: Global, annals: &Annals) {
        let count = annals.len() as u32;
        for place in 0..count {
            let reply = annals.reply(place);
            self.judge(rt, alloc, annals.seat(place), annals.op(place), &reply);
        }
    }

    /// Each call of the disk that failed was told by a lookup or a next, but for the last one where the store stopped.
    pub fn check_faults(&self, rt: &impl Abort, disk: &MemDisk) {
        let told = match self.stopped {
            Some(_) => self.faults.saturating_add(1),
            None => self.faults,
        };
        assert_same(rt, disk.faults(), told);
        if let Some(why) = self.stopped {
            assert_same(rt, why, Why::Faulted(told));
        }
        assert_that(rt, self.stopped.is_some() || !self.is_told);
    }

    /// Whether lookups found what the writes left that were done, with the one that may be there or without.
    pub fn allows(&self, annals: &Annals) -> bool {
        have_found(&self.writes, annals) || have_found(&self.tried, annals)
    }
}

// The first place from here on that the caller's entry has, or how many there are.
fn next_of(annals: &Annals, seat: u32, from: u32) -> u32 {
    let count = annals.len() as u32;
    for place in from..count {
        if annals.seat(place) == seat {
            return place;
        }
    }
    count
}

// The caller's entries ask for its lines, in order, and for no more.
fn asks_its_lines(rt: &impl Abort, lines: &[Line], annals: &Annals, seat: u32) {
    let count = annals.len() as u32;
    let mut place = next_of(annals, seat, 0);
    for line in lines {
        if line.seat == seat {
            assert!(rt; place < count);
            assert_that(rt, *annals.op(place) == line.op);
            place = next_of(annals, seat, place + 1);
        }
    }
    assert_same(rt, place, count);
}

/// Each caller's lines stand in the history once, in order, and nothing else does.
pub fn asks_the_lines(rt: &impl Abort, lines: &[Line], annals: &Annals) {
    assert_same(rt, annals.len(), lines.len());
    for seat in 0..CALLERS {
        asks_its_lines(rt, lines, annals, seat);
    }
}
