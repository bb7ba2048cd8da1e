//! A judge of histories of one caller, by the plain map: the list of the writes, and the rows that are held.
use crate::departure::Departure;
use crate::lookups::{kept_of, reply_of, shown};
use crate::words::number;
use blsm_model::{Key, Op, Value, Write, value_of};
use std::alloc::{AllocError, Global};

// The rows of a hold, as they are printed, and how many of them were given.
#[derive(Drop)]
struct Held {
    rows: Vec<String>,
    given: usize,
}

/// The writes that were done, in order, and how the store stands.
#[derive(Drop)]
pub struct Judge {
    alloc: Global,
    // The writes that were answered `ok`, and the one that may be there or not.
    writes: Vec<Write>,
    unsure: Option<Write>,
    held: Option<Held>,
    // How many calls of the disk failed, and how many had when the store was stopped.
    faults: u64,
    stopped: Option<u64>,
    // The last command was a write that was done: what it paid then may have stopped the store.
    may_have_paid: bool,
}

// Puts a key in its place, where it isn't there yet.
fn place_key(keys: &mut Vec<Key>, key: &Key) -> Result<(), AllocError> {
    let mut at = 0usize;
    for other in keys.iter() {
        if other == key {
            return Ok(());
        }
        if other < key {
            at = at.saturating_add(1);
        }
    }
    if at <= keys.len() {
        keys.insert(at, key.copy())?;
    }
    Ok(())
}

/// The keys of writes, each once, in order.
pub fn keys_of(alloc: Global, writes: &[Write]) -> Result<Vec<Key>, AllocError> {
    let mut keys = Vec::new(alloc);
    for write in writes {
        place_key(&mut keys, write.key())?;
    }
    Ok(keys)
}

// A row as it is printed, where the key has a value.
fn row_of(alloc: Global, writes: &[Write], key: &Key) -> Result<Option<String>, AllocError> {
    let Some(value) = value_of(writes, key) else {
        return Ok(None);
    };
    let (key, count, text) = (
        shown(key.as_bytes()),
        value.count,
        shown(value.text.as_bytes()),
    );
    Ok(Some(format!(in alloc; " {key} {count} {text}")?))
}

// The rows of a range after these writes.
fn rows_of(
    alloc: Global,
    writes: &[Write],
    low: &Key,
    high: &Key,
) -> Result<Vec<String>, AllocError> {
    let mut rows = Vec::new(alloc);
    for key in &keys_of(alloc, writes)? {
        if key < low || key >= high {
            continue;
        }
        if let Some(row) = row_of(alloc, writes, key)? {
            rows.push(row)?;
        }
    }
    Ok(rows)
}

// A reply with rows, as it is printed.
fn text_of(alloc: Global, rows: &[String]) -> Result<String, AllocError> {
    let mut text = format!(in alloc; "rows {}", rows.len())?;
    for row in rows {
        text.push_str(row)?;
    }
    Ok(text)
}

impl Held {
    // The next rows, so many or those that are left.
    fn next(&self, n: u32) -> &[String] {
        match self.rows.get(self.given..) {
            Some(left) => &left[..left.len().min(n as usize)],
            None => &[],
        }
    }
}

impl Judge {
    pub fn new(alloc: Global) -> Judge {
        Judge {
            alloc,
            writes: Vec::new(alloc),
            unsure: None,
            held: None,
            faults: 0,
            stopped: None,
            may_have_paid: false,
        }
    }

    // What a write that first looks at its key finds there.
    fn looked_at(&self, op: &Op) -> Option<Value> {
        match op {
            Op::New(key, _) | Op::Swap(key, _, _) => value_of(&self.writes, key),
            _ => None,
        }
    }

    // The reply to a write: it is done where its condition holds.
    fn reply_to_write(&self, op: &Op) -> Result<String, AllocError> {
        let found = self.looked_at(op);
        if op.is_met(&found) {
            String::from_str(self.alloc, "ok")
        } else {
            kept_of(self.alloc, &found)
        }
    }

    // The reply to a command of a store that runs and whose calls don't fail. For work there is none that is known.
    fn reply_to(&self, op: &Op) -> Result<String, AllocError> {
        match op {
            Op::Put(..) | Op::Add(..) | Op::Tail(..) | Op::Del(_) | Op::New(..) | Op::Swap(..) => {
                self.reply_to_write(op)
            }
            Op::Get(key) => reply_of(self.alloc, &value_of(&self.writes, key)),
            Op::Hold(..) => String::from_str(self.alloc, "held"),
            Op::Next(n) => match &self.held {
                Some(held) => text_of(self.alloc, held.next(*n)),
                None => String::from_str(self.alloc, "nohold"),
            },
            Op::Release => match &self.held {
                Some(_) => String::from_str(self.alloc, "ok"),
                None => String::from_str(self.alloc, "nohold"),
            },
            Op::Work(_) => String::from_str(self.alloc, "did"),
        }
    }

    // Whether it is a write whose condition holds.
    fn is_taken(&self, op: &Op) -> bool {
        op.is_write() && op.is_met(&self.looked_at(op))
    }

    // Goes on by a command that was answered well.
    fn go_on(&mut self, op: &Op) -> Result<(), AllocError> {
        self.may_have_paid = self.is_taken(op);
        if op.is_write() && self.may_have_paid {
            self.writes.push(op.write())?;
        }
        match op {
            Op::Hold(low, high) => {
                let rows = rows_of(self.alloc, &self.writes, low, high)?;
                self.held = Some(Held { rows, given: 0 });
            }
            Op::Next(n) => {
                if let Some(held) = &mut self.held {
                    let some = held.next(*n).len();
                    held.given = held.given.saturating_add(some);
                }
            }
            Op::Release => self.held = None,
            _ => {}
        }
        Ok(())
    }

    // One call more failed, and the store is stopped.
    fn stop(&mut self) {
        self.faults = self.faults.saturating_add(1);
        self.stopped = Some(self.faults);
    }

    // Whether the reply tells that a write failed whose condition holds. One in doubt may be there or not.
    fn may_be_lost(&mut self, op: &Op, reply: &str) -> bool {
        if !op.is_write() || !self.is_taken(op) {
            return false;
        }
        if reply == "fault unsure" {
            self.unsure = Some(op.write());
            return true;
        }
        reply == "fault lost"
    }

    // Whether the reply to a command of a store that runs tells of a failure that may have come.
    fn may_fail(&mut self, op: &Op, reply: &str) -> bool {
        match (op, reply) {
            (Op::Get(_) | Op::Next(_) | Op::New(..) | Op::Swap(..), "fault") => {
                self.faults = self.faults.saturating_add(1);
            }
            (Op::Work(_), "fault") => self.stop(),
            _ => {
                if !self.may_be_lost(op, reply) {
                    return false;
                }
                self.stop();
            }
        }
        self.may_have_paid = false;
        true
    }

    // Whether the reply tells that the store is stopped, and by which fault.
    fn is_stopped(&mut self, reply: &str) -> bool {
        let Some(word) = reply.strip_prefix("stopped fault ") else {
            return false;
        };
        if self.stopped.is_none() && self.may_have_paid {
            self.stop();
        }
        self.stopped.is_some() && number(word) == self.stopped
    }

    /// Goes on by an entry of a history, and tells whether its reply is right.
    pub fn judge(&mut self, op: &Op, reply: &str) -> Result<bool, Departure> {
        if self.stopped.is_some() || reply.starts_with("stopped ") {
            return Ok(self.is_stopped(reply));
        }
        let is_right = match (op, reply.strip_prefix("did ")) {
            (Op::Work(n), Some(turns)) => number(turns).is_some_and(|turns| turns <= u64::from(*n)),
            _ => reply == self.reply_to(op)?.as_str(),
        };
        if is_right {
            self.go_on(op)?;
            return Ok(true);
        }
        Ok(self.may_fail(op, reply))
    }

    /// The writes that were done, and the one that may be there or not.
    pub fn into_writes(self) -> (Vec<Write>, Option<Write>) {
        let Judge { writes, unsure, .. } = self;
        (writes, unsure)
    }

    /// How many calls of the disk failed, as far as replies tell.
    pub fn faults(&self) -> u64 {
        self.faults
    }
}
