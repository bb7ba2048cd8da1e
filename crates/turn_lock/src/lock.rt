//! The lock and its callers.
ghost use Rattle.std.specs.Prelude.{◌≡◌, ◌≢◌, ℕ, ◌+◌, ◌-◌, ◌%◌, ◌^◌, ◌<◌, ◌≤◌, [], ◌∷◌, Some, None, true, false, length, MatchResult};
ghost use Rattle.turn_lock.specs.Rule.{IsKnown};
ghost use Rattle.blsm_model.specs.Facts.{Follows, Same};
ghost use Rattle.turn_lock.specs.Views.{opening_view, cut, given, joined, size, Each, SawFront, with_stage};
ghost use Rattle.turn_lock.specs.Plays.{taking, giving, Finds, with_front, with_bytes};
ghost use Rattle.turn_lock.specs.Callers.{IsOpened, GaveAway, IsSplitOff, Idles, HasTicket, Drew, IsTurn, HasTaken, IsBack, HasGiven, GaveBack, MayGive, with_me};
ghost use Rattle.turn_lock.specs.declared.view.Stage.TheVariants.{Idle, Gave};

use crate::bells::Bells;
use crate::rule::{
    Cuts, Draws, Ends, Gives, Looks, Publishes, ReadsBytes, ReadsFront, Takes, Turns,
};
use crate::view::View;
use atomic_table::{Refused, Seat, Table};
use blsm_model::Stands;
use std::alloc::Global;
use std::marker::Model;
use std::snapshot::Snapshot;
use std::sync::Wait;
use std::thread::yield_now;

// How often a caller looks for its turn, yielding its processor, before it sleeps.
const LOOKS: u32 = 4;

/// A lock round one value. Its callers take turns in the order of their tickets.
#[derive(Drop)]
pub struct TurnLock<V: Stands> {
    table: Table<Option<V>, View<V>, Snapshot<V>, Turns<V>, Global>,
    bells: Bells,
}

impl<V: Stands> Model for TurnLock<V> {
    ghost use Rattle.std.specs.Prelude.{◌≡◌};
    ghost use Rattle.turn_lock.specs.Callers.{Lock};

    ghost Value = { Lock V };

    ghost view = { λ l. record { table = l.table.shared.table_id; start = l.table.shared.key.value } };

    ghost invariant = { λ l. (l.table.shared.table_id.words ≡ 4) × (l.table.shared.table_id.slots ≡ 1) };
}

/// One who may take turns, with the numbers that it has.
#[derive(Drop)]
pub struct Caller<V> {
    seat: Seat<Option<V>, View<V>>,
    number: u32,
    // The numbers from here to 23 are to be given away.
    next: u32,
    // Means something while it waits or has the turn.
    ticket: u64,
}

impl<V> Model for Caller<V> {
    ghost use Rattle.turn_lock.specs.Callers.{Held, Numbered};

    ghost Value = { Held V };

    ghost view = { λ c. record { table = c.seat.table_id; me = c.seat.me; number = c.number; next = c.next; ticket = c.ticket } };

    ghost invariant = { λ c. Numbered c.seat.me.0 c.number c.next };
}

impl<V> Caller<V> {
    /// Its own number.
    pub fn number(&self) -> u32
        ensures { result ≡ self.now.number }
    {
        self.number
    }
}

impl<V: Stands + Drop> TurnLock<V> {
    /// A lock round the value, and its first caller, with the number 0 and those from 1 to 23 to give away.
    pub fn new(alloc: Global, value: V) -> Result<(TurnLock<V>, Caller<V>), V>
        requires lasts { V.stands value value }
        requires fresh { (V.facts value).history ≡ [] }
        ensures { MatchResult result (λ made. IsOpened value made.0 made.1) (λ back. back ≡ value) }
    {
        let start = Snapshot::of(&value);
        let mut slots = match Vec::with_capacity(alloc, 1) {
            Ok(slots) => slots,
            Err(_) => return Err(value),
        };
        slots.push_reserved(Some(value));
        match Table::new(alloc, &[0, 0, 0, 0], slots, &start) {
            Ok((table, seat)) => Ok((
                TurnLock {
                    table,
                    bells: Bells::new(),
                },
                Caller {
                    seat,
                    number: 0,
                    next: 1,
                    ticket: 0,
                },
            )),
            Err(Refused { mut slots }) => Err(slots.pop().unwrap().unwrap()),
        }
    }

    /// Makes a caller with the least number that this one has to give away.
    pub fn split(&self, caller: &mut Caller<V>) -> Caller<V>
        requires lock { caller.old.table ≡ self.now.table }
        requires idle { Idles caller.old.me }
        requires spare { caller.old.next < 24 }
        ensures old { GaveAway caller.old caller.new }
        ensures new { IsSplitOff caller.old result }
    {
        let number = caller.next;
        let seat = self.table.shared.split_seat::<Cuts>(&mut caller.seat);
        caller.next += 1;
        Caller {
            seat,
            number,
            next: 24,
            ticket: 0,
        }
    }

    /// Takes in the numbers of another caller, each with the value that it gave back last, and what it saw.
    pub fn join(&self, caller: &mut Caller<V>, other: Caller<V>)
        requires lock { (caller.old.table ≡ self.now.table) × (other.table ≡ self.now.table) }
        requires idle { Idles caller.old.me × Idles other.me }
        ensures { caller.new ≡ with_me caller.old (joined caller.old.me.0 other.me.0, []) }
    {
        let Caller {
            seat,
            number: _,
            next: _,
            ticket: _,
        } = other;
        self.table.shared.join_seat::<Takes>(&mut caller.seat, seat);
    }

    fn draw(&self, caller: &mut Caller<V>)
        requires lock { caller.old.table ≡ self.now.table }
        requires idle { Idles caller.old.me }
        ensures { Drew caller.old caller.new }
    {
        caller.ticket = self.table.shared.fetch_add::<Draws>(&mut caller.seat, 0, 1);
    }

    // Whether it is the caller's turn.
    fn look(&self, caller: &mut Caller<V>) -> bool
        requires lock { caller.old.table ≡ self.now.table }
        requires ticket { HasTicket caller.old.me caller.old.ticket }
        ensures turn { result ≡ true → IsTurn V.facts V.stands caller.old caller.new }
        ensures none { result ≡ false → caller.new ≡ caller.old }
    {
        self.table.shared.load::<Looks>(&mut caller.seat, 1) == caller.ticket
    }

    // Looks a few times, before the caller sleeps.
    fn look_often(&self, caller: &mut Caller<V>) -> bool
        requires lock { caller.old.table ≡ self.now.table }
        requires ticket { HasTicket caller.old.me caller.old.ticket }
        ensures turn { result ≡ true → IsTurn V.facts V.stands caller.old caller.new }
        ensures none { result ≡ false → caller.new ≡ caller.old }
    {
        for _ in 0..LOOKS {
            if self.look(caller) {
                return true;
            }
            yield_now();
        }
        false
    }

    /// Waits for the caller's turn, and takes the value out.
    pub fn take<R: Wait>(&self, rt: &R, caller: &mut Caller<V>) -> V
        requires lock { caller.old.table ≡ self.now.table }
        requires idle { Idles caller.old.me }
        ensures { HasTaken V.facts V.stands caller.old result caller.new }
    {
        self.draw(caller);
        self.await_turn(rt, caller);
        self.take_out(caller)
    }

    fn await_turn<R: Wait>(&self, rt: &R, caller: &mut Caller<V>)
        requires lock { caller.old.table ≡ self.now.table }
        requires ticket { HasTicket caller.old.me caller.old.ticket }
        ensures { IsTurn V.facts V.stands caller.old caller.new }
    {
        if self.look_often(caller) {
            return;
        }
        for _ in rt.forever() {
            if self.look(caller) {
                return;
            }
            self.bells.sleep(rt, caller.ticket);
        }
        unreachable!()
    }

    fn take_out(&self, caller: &mut Caller<V>) -> V
        requires lock { caller.old.table ≡ self.now.table }
        requires out { (b : V) × (caller.old.me.1 ≡ (0, Some b) ∷ []) }
        ensures value { caller.old.me.1 ≡ (0, Some result) ∷ [] }
        ensures caller { caller.new ≡ with_me caller.old (caller.old.me.0, (0, None) ∷ []) }
    {
        self.table
            .shared
            .exchange(&mut caller.seat, 0, None)
            .unwrap()
    }

    fn put_in(&self, caller: &mut Caller<V>, value: V)
        requires lock { caller.old.table ≡ self.now.table }
        requires out { caller.old.me.1 ≡ (0, None) ∷ [] }
        ensures caller { caller.new ≡ with_me caller.old (caller.old.me.0, (0, Some value) ∷ []) }
    {
        drop(self.table.shared.exchange(&mut caller.seat, 0, Some(value)));
    }

    fn publish_front(&self, caller: &mut Caller<V>, front: u64, _value: Snapshot<V>)
        requires lock { caller.old.table ≡ self.now.table }
        requires turn { (b : V) × IsBack b _value.value caller.old × Follows caller.old.number (V.facts b) (V.facts _value.value) }
        requires lasts { (a : V) → caller.old.me.0.start ≡ Some a → V.stands a _value.value }
        requires front { front ≡ length (V.facts _value.value).history }
        ensures { HasGiven V.facts V.stands caller.old _value.value front caller.new }
    {
        self.table.shared.store::<Gives>(&mut caller.seat, 2, front);
    }

    fn publish_bytes(&self, caller: &mut Caller<V>, bytes: u64)
        requires lock { caller.old.table ≡ self.now.table }
        requires gave { (j : ℕ) × (b : V) × (caller.old.me.0.stage ≡ Gave j b) × (caller.old.me.1 ≡ []) × (bytes ≡ (V.facts b).peak) }
        ensures { caller.new ≡ with_me caller.old (with_bytes caller.old.me.0 bytes, caller.old.me.1) }
    {
        self.table
            .shared
            .store::<Publishes>(&mut caller.seat, 3, bytes);
    }

    fn serve_next(&self, caller: &mut Caller<V>)
        requires lock { caller.old.table ≡ self.now.table }
        requires gave { (j : ℕ) × (b : V) × (caller.old.me.0.stage ≡ Gave j b) × (caller.old.me.1 ≡ []) × (caller.old.ticket ≡ j % 2 ^ 64) }
        ensures { caller.new ≡ with_me caller.old (with_stage caller.old.me.0 Idle, caller.old.me.1) }
    {
        let next = caller.ticket.wrapping_add(1);
        self.table.shared.store::<Ends>(&mut caller.seat, 1, next);
        self.bells.ring(next);
    }

    /// Gives a value back in the place of the one that was taken, publishes its length and peak, and ends the turn. It is what one
    /// hold may make of that one (`one` of `Stands`).
    pub fn give(&self, caller: &mut Caller<V>, value: V)
        requires lock { caller.old.table ≡ self.now.table }
        requires turn { MayGive V.facts V.one caller.old value }
        requires lasts { (a : V) → caller.old.me.0.start ≡ Some a → V.stands a value }
        ensures { GaveBack V.facts V.stands caller.old value caller.new }
    {
        let front = value.entries();
        let bytes = value.peak();
        let shown = Snapshot::of(&value);
        self.put_in(caller, value);
        self.publish_front(caller, front, shown);
        self.publish_bytes(caller, bytes);
        self.serve_next(caller);
    }

    /// The length of a published history, no less than what this caller read or gave back before.
    pub fn look_front(&self, caller: &mut Caller<V>) -> u64
        requires lock { caller.old.table ≡ self.now.table }
        ensures floor { caller.old.me.0.front ≤ result }
        ensures read { caller.new ≡ with_me caller.old (with_front caller.old.me.0 result, caller.old.me.1) }
    {
        self.table.shared.load::<ReadsFront>(&mut caller.seat, 2)
    }

    /// A published peak, no less than what this caller read or gave back before, and no more than the start gives.
    pub fn look_bytes(&self, caller: &mut Caller<V>) -> u64
        requires lock { caller.old.table ≡ self.now.table }
        ensures floor { caller.old.me.0.bytes ≤ result }
        ensures most { (start : V) → caller.old.me.0.start ≡ Some start → result ≤ V.most start }
        ensures read { caller.new ≡ with_me caller.old (with_bytes caller.old.me.0 result, caller.old.me.1) }
    {
        self.table.shared.load::<ReadsBytes>(&mut caller.seat, 3)
    }

    /// Ends the lock, and gives its value. The caller has all numbers.
    ///
    /// What the caller saw is a front of the value's history, the entries of each number are all among those it saw, and what it
    /// read last of the published words is no more than the value's length and peak. What each number had seen when it gave a
    /// value back last is a front of that history, too: of what two have seen the shorter begins the longer.
    pub fn close(self, caller: Caller<V>) -> V
        requires lock { caller.table ≡ self.table }
        requires idle { Idles caller.me }
        requires whole { size caller.me.0 ≡ 24 }
        ensures lasts { V.stands self.start result }
        ensures known { IsKnown V.facts V.stands self.start result caller.me.0 }
        ensures fronts { Each (SawFront V.facts result) caller.me.0.own }
    {
        self.open_up(caller).unwrap()
    }

    fn open_up(self, caller: Caller<V>) -> Option<V>
        requires lock { caller.table ≡ self.table }
        requires idle { Idles caller.me }
        requires whole { size caller.me.0 ≡ 24 }
        ensures { (value : V) × (result ≡ Some value) × V.stands self.start value × IsKnown V.facts V.stands self.start value caller.me.0 }
    {
        let Caller {
            seat,
            number: _,
            next: _,
            ticket: _,
        } = caller;
        let TurnLock { table, bells: _ } = self;
        let mut closed = table.close_with(seat);
        let value = closed.take(0);
        closed.free();
        value
    }
}
