//! The plain store: the sequential map over a list of writes, which it scans.
ghost use Rattle.std.specs.Prelude.{◌≡◌, ◌+◌, ◌<◌, ◌≤◌, ◌↔◌, ◌++◌, ◌∷◌, [], List, IsTrue, IfOk, OnErr};
ghost use Rattle.blsm_model.specs.declared.op.Write.{Write};
ghost use Rattle.blsm_model.specs.Values.{value_at};
ghost use Rattle.blsm_model.specs.Histories.{counted_writes, looked_at};
ghost use Rattle.blsm_model.specs.Legal.{is_write, total_weight, IsLegal};
ghost use Rattle.blsm_model.specs.Scripts.{IsOfScript, asked, asked_in};
ghost use Rattle.blsm_model.specs.Plain.{is_plain, IsPlainStep, AllPlain, AllAnswered, KeepsHistory};

use crate::{Entry, Key, Line, Op, Reply, Text, Value, Write};
use refusal::NoMemory;
use std::alloc::Global;
use std::marker::Model;

// The value of the key after one more write, where it was this one before.
#[tactic(auto, using(crate::proofs::ValueLemmas::pushes))]
fn after_write(value: Option<Value>, write: &Write, key: &Key) -> Option<Value>
    ensures { (writes : List Write) → value ≡ value_at writes key.now → result ≡ value_at (writes ++ write.now ∷ []) key.now }
{
    match write {
        Write::Put(at, new) if at == key => Some(new.copy()),
        Write::Add(at, count) if at == key => {
            let base = value.unwrap_or(Value {
                count: 0,
                text: Text::empty(),
            });
            Some(Value {
                count: base.count.wrapping_add(*count),
                text: base.text,
            })
        }
        Write::Tail(at, tail) if at == key => {
            let base = value.unwrap_or(Value {
                count: 0,
                text: Text::empty(),
            });
            Some(Value {
                // the sum of no amount, modulo 2^64 as the definition has it
                count: base.count.wrapping_add(0),
                text: base.text.with_tail(tail),
            })
        }
        Write::Del(at) if at == key => None,
        _ => value,
    }
}

/// The value of a key after the writes, the oldest first; `None` where it is absent.
///
/// It reads every write, and is what any faster way of looking a key up is compared with.
pub fn value_of(writes: &[Write], key: &Key) -> Option<Value>
    ensures { result ≡ value_at writes.now key.now }
{
    let mut value = None;
    for write in writes {
        value = after_write(value, write, key);
    }
    value
}

/// The plain store: the list of all writes, the oldest first, and their weights together.
///
/// It is what the definitions say, as slowly and as obviously as can be: a get reads every write. Tests compare the
/// store's replies with its replies, command by command. It answers writes and gets of one caller after another, and
/// knows no hold, no work, no disk and no fault.
#[derive(Drop)]
pub struct Plain {
    writes: Vec<Write>,
    charge: u64,
    limit: u64,
}

impl Model for Plain {
    ghost use Rattle.std.specs.Prelude.{◌≤◌};
    ghost use Rattle.blsm_model.specs.PlainState.{PlainState};

    ghost Value = { PlainState };

    ghost view = { λ p. record { writes = p.writes.items; charge = p.charge; limit = p.limit } };

    ghost invariant = { λ p. p.charge ≤ p.limit };
}

impl Plain {
    /// A store with no write, which takes writes of at most `limit` bytes of weight together.
    pub fn new(alloc: Global, limit: u64) -> Plain
        ensures { result ≡ record { writes = []; charge = 0; limit = limit } }
    {
        Plain {
            writes: Vec::new(alloc),
            charge: 0,
            limit,
        }
    }

    /// Whether the plain store answers such a command: a write or a get.
    pub fn can_answer(op: &Op) -> bool
        ensures { result ≡ is_plain op.now }
    {
        matches!(op, Op::Get(_)) || op.is_write()
    }

    /// Whether it answers each command of a script.
    pub fn can_run(script: &[Line]) -> bool
        ensures { IsTrue result ↔ AllPlain script.now }
    {
        script.iter().all(|line| Plain::can_answer(&line.op))
    }

    /// Answers one command: a get from the writes so far, a write with `Done`, with `Kept` where its condition doesn't hold, or with `Full`
    /// and the charge in bytes where its weight would bring the charge past the limit. After `NoMemory` the store is as before.
    pub fn answer(&mut self, op: &Op) -> Result<Reply, NoMemory>
        requires { IsTrue (is_plain op.now) }
        ensures ok { IfOk result (IsPlainStep self.old op.now self.new) }
        // Where it stood for a legal history, it stands for that history with this entry.
        ensures stands { IfOk result (KeepsHistory self.old op.now self.new) }
        ensures err { OnErr result (self.new ≡ self.old) }
    {
        let reply = self.reply_to(op)?;
        Ok(reply)
    }

    // Looks a key up, or takes a write.
    fn reply_to(&mut self, op: &Op) -> Result<Reply, NoMemory>
        requires { IsTrue (is_plain op.now) }
        ensures ok { IfOk result (IsPlainStep self.old op.now self.new) }
        ensures err { OnErr result (self.new ≡ self.old) }
    {
        if let Op::Get(key) = op {
            return Ok(match value_of(&self.writes, key) {
                Some(value) => Reply::Is(value),
                None => Reply::Absent,
            });
        }
        self.take(op)
    }

    // What a write that first looks at its key finds there.
    fn looked_at(&self, op: &Op) -> Option<Value>
        ensures { result ≡ looked_at op.now (value_at self.now.writes) }
    {
        match op {
            Op::New(key, _) | Op::Swap(key, _, _) => value_of(&self.writes, key),
            _ => None,
        }
    }

    // Takes a write, or keeps it out by its condition, or refuses it for its size.
    fn take(&mut self, op: &Op) -> Result<Reply, NoMemory>
        requires { IsTrue (is_write op.now) }
        ensures ok { IfOk result (IsPlainStep self.old op.now self.new) }
        ensures err { OnErr result (self.new ≡ self.old) }
    {
        let found = self.looked_at(op);
        if !op.is_met(&found) {
            return Ok(Reply::Kept(found));
        }
        let weight = op.weight();
        if self.limit - self.charge < weight {
            return Ok(Reply::Full(self.charge));
        }
        self.writes.push(op.write())?;
        self.charge += weight;
        Ok(Reply::Done)
    }
}

/// Runs a script on a fresh plain store, line by line: the history that one caller after another would see.
///
/// It is what a run of the same script on the real store is compared with. `NoMemory` where memory is refused.
pub fn run(alloc: Global, script: &[Line], limit: u64) -> Result<Vec<Entry>, NoMemory>
    requires { AllPlain script.now }
    ensures legal { IfOk result (λ history. IsLegal (record { opening = 0; dels = limit; others = limit }) [] history.items) }
    // Its entries are the lines, in order.
    ensures in_order { IfOk result (λ history. asked_in history.items ≡ asked script.now) }
    // So each caller's entries are its lines, which alone is asked of a run with several callers at once.
    ensures script { IfOk result (λ history. IsOfScript script.now history.items) }
    // With the legal replies this says that a write is refused exactly where it would pass the limit.
    ensures fits { IfOk result (λ history. total_weight (counted_writes history.items) ≤ limit) }
    // No reply is a fault or a stop.
    ensures answered { IfOk result (λ history. AllAnswered history.items) }
{
    let mut plain = Plain::new(alloc, limit);
    let mut history = Vec::new(alloc);
    for line in script {
        let reply = plain.answer(&line.op)?;
        history.push(Entry {
            seat: line.seat,
            op: line.op.copy(),
            reply,
        })?;
    }
    Ok(history)
}
