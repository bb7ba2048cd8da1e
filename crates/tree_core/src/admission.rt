//! Writes are admitted.
ghost use Rattle.std.specs.Prelude.{◌≡◌, ◌≤◌, ◌+◌, ℕ, List, Option, if◌then◌else◌, true, None, [], ◌∷◌, IsTrue};
ghost use Rattle.blsm_model.specs.declared.key.Key.{Key};
ghost use Rattle.blsm_model.specs.declared.row.Value.{Value};
ghost use Rattle.blsm_model.specs.Stored.{as_reply};
ghost use Rattle.blsm_model.specs.declared.history.Reply.TheVariants.{FaultLost, FaultUnsure};
ghost use Rattle.blsm_model.specs.Book.{HasRoom};
ghost use Rattle.blsm_model.specs.Format.{least_weight, most_weight};
ghost use Rattle.blsm_model.specs.Geometry.{file_length};
ghost use Rattle.blsm_model.specs.Histories.{is_met, looks_first, writes_of};
ghost use Rattle.blsm_model.specs.Legal.{TailsFit, is_write, total_weight, is_del};
ghost use Rattle.disk_trait.specs.Effects.{Affects};
ghost use Rattle.gear_sched.specs.Gears.{first_debt, second_debt};
ghost use Rattle.record_delta.specs.Several.{entries_of};
ghost use Rattle.seat_book.specs.State.{may_note_in, noted_in};
ghost use Rattle.scan_view.specs.Pins.{beside_pins};
ghost use Rattle.tree_machine.specs.declared.step.Kind.TheVariants as kind;
ghost use Rattle.tree_machine.specs.Lists.{value_in};
ghost use Rattle.tree_machine.specs.Machine.{Machine};
ghost use Rattle.tree_machine.specs.Plays.{may};
ghost use Rattle.tree_machine.specs.Stands.{WritesFit};
ghost use Rattle.core_pace.specs.Events.{MayWrite};
ghost use Rattle.disk_trait.specs.Reads.{OnlyReads};
ghost use Rattle.tree_file.specs.Tree.{HoldsTree, Tree};
ghost use Rattle.tree_runs.specs.Holding.{AreGuided};
ghost use Rattle.core_moves.specs.Needs.{IsOn};
ghost use Rattle.tree_core.specs.Answers.{HasDropped, found_in, reply_to_write};
ghost use Rattle.tree_core.specs.Calls.{Admits, AdmitsMet, LooksFirst};
ghost use Rattle.tree_core.specs.Causes.{CountsFirst, Finds, IsAbout, Tries, calls_to_admit, tried_by};
ghost use Rattle.tree_core.specs.Ruling.{ruled_by};
ghost use Rattle.tree_core.specs.Clock.{EndsTaken};
ghost use Rattle.tree_core.specs.Standing.{AnyRows, StandsFor};
ghost use Rattle.tree_core.specs.Taking.{Runs, Spells, Takes, TakesOver, TellsTaking};

use crate::lookup::look_up;
use crate::settling::{settle_deep, settle_pass};
use crate::{Admission, Core, Lookup};
use blsm_model::{Key, Op, ShortReply, Value, Why};
use core_moves::Held;
use disk_trait::Disk;
use record_delta::{Rec, weight};
use seat_book::SeatBook;

// How a write was taken: it is in the tree; or a call of the disk failed, before its append had begun or after.
enum Taking {
    Taken,
    Failed { begun: bool },
}

// The key that a write's command writes, and its record, for which the room of another one is taken.
fn spell<'a>(op: &'a Op, rec: &mut Rec) -> &'a Key
    requires is_write { IsTrue (is_write op.now) }
    requires tails { TailsFit op.now }
    ensures { Spells op.now result.now rec.new }
{
    match op {
        Op::Put(key, value) | Op::New(key, value) | Op::Swap(key, _, value) => {
            rec.set_base(value.count, value.text.as_bytes());
            key
        }
        Op::Add(key, amount) => {
            rec.set_delta(*amount, &[]);
            key
        }
        Op::Tail(key, tail) => {
            rec.set_delta(0, tail.as_bytes());
            key
        }
        Op::Del(key) => {
            *rec = Rec::Tomb;
            key
        }
        _ => unreachable!(),
    }
}

// Takes a command's write that there is room for: the swaps that are due, a begin where it is due, the append.
fn take<D: Disk>(held: &mut Held, disk: &mut D, seat: u32, op: &Op, key: &Key, rec: &Rec) -> Taking
    requires runs { Runs held.old (D.state disk.old) }
    requires is_write { IsTrue (is_write op.now) }
    requires spelled { Spells op.now key.now rec.now }
    requires may { MayWrite seat (total_weight (writes_of op.now)) op.now held.old }
    requires fits { WritesFit (kind.Admit op.now) }
    ensures takes { Takes result seat (entries_of (writes_of op.now)) held.old held.new (D.state disk.new) }
    ensures lists { (opening : List (Key × Value)) (m : Machine) → IsTrue (D.state disk.old).is_honest → StandsFor AnyRows opening held.old m (D.state disk.old)
        → held.old.book.stopped ≡ None → IsTrue (may m seat (kind.Admit op.now)) → WritesFit (kind.Admit op.now) → IsTrue
        (is_met op.now (value_in m.lists))
        → TakesOver result opening seat op.now m held.new (D.state disk.old) (D.state disk.new) }
    ensures effect { Affects (beside_pins held.old.runs.sizes held.old.runs.space.pins) (file_length held.old.runs.sizes) (calls_to_admit held.old) (D.state disk.old) (D.state disk.new) }
    ensures ends { EndsTaken result held.old (D.state disk.old) (D.state disk.new) }
    ensures faults { TellsTaking result (D.state disk.old) (D.state disk.new) }
{
    if settle_deep(held, disk).is_err() {
        return Taking::Failed { begun: false };
    }
    if settle_pass(held, disk).is_err() {
        return Taking::Failed { begun: false };
    }
    held.begin_for(op.weight());
    match held.write(disk, seat, key, rec) {
        Ok(()) => Taking::Taken,
        Err(_) => Taking::Failed { begun: true },
    }
}

// Whether it is a del, which may fill the tree.
fn is_del(op: &Op) -> bool
    ensures { result ≡ is_del op.now }
{
    matches!(op, Op::Del(_))
}

// The reply of a write that failed.
fn failed(begun: bool) -> ShortReply
    ensures { as_reply result ≡ (if begun then FaultUnsure else FaultLost) }
{
    if begun {
        ShortReply::FaultUnsure
    } else {
        ShortReply::FaultLost
    }
}

// The reply of an answer, where no value was found.
fn reply_of(answer: Admission) -> ShortReply
    ensures { as_reply result ≡ reply_to_write (ruled_by answer None) }
{
    match answer {
        Admission::Admitted => ShortReply::Done,
        Admission::Kept => ShortReply::Kept(None),
        Admission::Full(charge) => ShortReply::Full(charge),
        Admission::ReadFault => ShortReply::Fault,
        Admission::Damaged(page) => ShortReply::Damaged(page),
        Admission::Fault { begun } => failed(begun),
        Admission::Stopped(why) => ShortReply::Stopped(why),
    }
}

// Notes it. It stays a call, as a function zeroes all its locals at entry, and an entry has a kilobyte.
#[inline(never)]
fn note(book: &mut SeatBook, seat: u32, op: &Op, answer: Admission)
    requires { HasRoom book.old.book.room (record { seat = seat; op = op.now; reply = reply_to_write (ruled_by answer None) }) }
    ensures { book.new ≡ noted_in seat op.now (reply_to_write (ruled_by answer None)) book.old }
{
    book.note(seat, op.copy(), reply_of(answer));
}

// What the lookup came to of a write that looks first: its condition holds; the value doesn't meet it; a call of the disk failed; or
// this page is damaged.
enum Tried {
    Met,
    Kept(Option<Value>),
    Fault,
    Damaged(u32),
}

// The key that it looks at.
fn looked_key(op: &Op) -> &Key
    requires { looks_first op.now ≡ true }
    ensures { IsAbout op.now result.now }
{
    match op {
        Op::New(key, _) => key,
        Op::Swap(key, _, _) => key,
        _ => unreachable!(),
    }
}

// Whether its condition holds by what was found.
fn judge(op: &Op, found: Option<Value>) -> Tried
    ensures { result ≡ tried_by op.now found }
{
    if op.is_met(&found) {
        Tried::Met
    } else {
        Tried::Kept(found)
    }
}

// Looks at the key of a write that looks first.
fn try_first<D: Disk>(held: &Held, disk: &mut D, op: &Op) -> Tried
    requires first { looks_first op.now ≡ true }
    requires runs { held.now.book.stopped ≡ None }
    requires on { IsOn held.now (D.state disk.old) }
    ensures tries { Tries result op.now held.now (D.state disk.old) (D.state disk.new) }
    ensures finds { (tree : Tree) → IsTrue (D.state disk.old).is_honest → HoldsTree held.now.runs.sizes tree (D.state disk.old).bytes →
        tree.catalogue ≡ held.now.runs.catalogue
        → AreGuided held.now.runs.guides held.now.runs.tags tree → HasDropped held.now tree (D.state disk.old).bytes
        → Finds result op.now (λ key. found_in key held.now tree) }
    ensures asks { (n : ℕ) → CountsFirst op.now held.now n → OnlyReads (file_length held.now.runs.sizes) n (D.state disk.old) (D.state disk.new) }
{
    match look_up(held, disk, looked_key(op)) {
        Lookup::Is(value) => judge(op, Some(value)),
        Lookup::Absent => judge(op, None),
        Lookup::Fault => Tried::Fault,
        Lookup::Damaged(page) => Tried::Damaged(page),
        Lookup::Stopped(_) => unreachable!(),
    }
}

impl<D: Disk + Drop> Core<D> {
    // Looks first, and notes why the write is refused, if it is. A put doesn't pass here, so that it has no
    // value that was found in its frame.
    #[inline(never)]
    fn look_first(&mut self, seat: u32, op: &Op) -> Option<Admission>
        requires first { looks_first op.now ≡ true }
        requires runs { self.old.held.book.stopped ≡ None }
        requires note { IsTrue (may_note_in seat 0 self.old.held.book) }
        requires even { first_debt self.old.held.gears seat + second_debt self.old.held.gears seat ≡ 0 }
        requires fits { WritesFit (kind.Admit op.now) }
        ensures { LooksFirst D.state seat op.now result self.old self.new }
    {
        match try_first(&self.held, &mut self.disk, op) {
            Tried::Met => None,
            Tried::Kept(found) => {
                self.held
                    .book
                    .note(seat, op.copy(), ShortReply::Kept(found));
                Some(Admission::Kept)
            }
            Tried::Fault => {
                self.held.book.note(seat, op.copy(), ShortReply::Fault);
                Some(Admission::ReadFault)
            }
            Tried::Damaged(page) => {
                self.held
                    .book
                    .note(seat, op.copy(), ShortReply::Damaged(page));
                Some(Admission::Damaged(page))
            }
        }
    }

    // Admits a write whose condition holds, or refuses it for its size.
    fn admit_met(&mut self, seat: u32, op: &Op, key: &Key, rec: &Rec, weight: u64) -> Admission
        requires write { IsTrue (is_write op.now) }
        requires spelled { Spells op.now key.now rec.now }
        requires weight { weight ≡ total_weight (writes_of op.now) }
        requires least { least_weight ≤ weight }
        requires most { weight ≤ most_weight }
        requires fits { WritesFit (kind.Admit op.now) }
        requires runs { self.old.held.book.stopped ≡ None }
        requires note { IsTrue (may_note_in seat 0 self.old.held.book) }
        requires even { first_debt self.old.held.gears seat + second_debt self.old.held.gears seat ≡ 0 }
        requires met { (opening : List (Key × Value)) (m : Machine) → IsTrue (D.state self.old.disk).is_honest → StandsFor AnyRows opening
            self.old.held m (D.state self.old.disk)
            → is_met op.now (value_in m.lists) ≡ true }
        ensures { AdmitsMet D.state seat op.now result self.old self.new }
    {
        let charge = self.charge();
        if !self.geometry().admits(is_del(op), charge, weight) {
            note(&mut self.held.book, seat, op, Admission::Full(charge));
            return Admission::Full(charge);
        }
        match take(&mut self.held, &mut self.disk, seat, op, key, rec) {
            Taking::Taken => {
                note(&mut self.held.book, seat, op, Admission::Admitted);
                Admission::Admitted
            }
            Taking::Failed { begun } => {
                self.held.book.stop(Why::Faulted(self.disk.faults()));
                note(&mut self.held.book, seat, op, Admission::Fault { begun });
                Admission::Fault { begun }
            }
        }
    }

    /// Admits a write, or refuses it: for its condition, where it looks first, by a lookup as a get's; for its size; or since a call failed. One that
    /// is taken swaps in the merges that are done, begins a pass where it is due, and is appended, and the caller owes merge work for it then. It
    /// notes one entry. A lookup that fails, a condition that doesn't hold and a write that is too big leave all else, and don't stop the store.
    ///
    /// The caller must owe nothing, unless the store is stopped, and have room for the entry and no open work.
    #[inline(never)]
    pub fn admit(&mut self, seat: u32, op: &Op) -> Admission
        requires write { IsTrue (is_write op.now) }
        requires note { IsTrue (may_note_in seat 0 self.old.held.book) }
        requires tails { TailsFit op.now }
        requires even { self.old.held.book.stopped ≡ None → first_debt self.old.held.gears seat + second_debt self.old.held.gears seat ≡ 0 }
        ensures { (found : Option Value) × Admits D.state seat op.now (ruled_by result found) self.old self.new }
    {
        let mut rec = Rec::Tomb;
        let key = spell(op, &mut rec);
        let bytes = weight(key, &rec);
        if let Some(why) = self.held.book.stopped() {
            note(&mut self.held.book, seat, op, Admission::Stopped(why));
            return Admission::Stopped(why);
        }
        if !op.looks_first() {
            return self.admit_met(seat, op, key, &rec, bytes);
        }
        match self.look_first(seat, op) {
            Some(refused) => refused,
            None => self.admit_met(seat, op, key, &rec, bytes),
        }
    }
}
