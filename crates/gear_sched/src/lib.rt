//! The gears: what each admitted byte owes to the merges that run, and which merge a seat's payment goes to.
//!
//! Each caller's seat has a desk with two debts, one to the pass and one to the deep merge. Contracts see the gears as the
//! record `GearState`. Weights are in bytes.
#![tactic(auto)]

ghost use Rattle.std.specs.Prelude.{◌≡◌, ℕ, ◌+◌, ◌-◌, ◌*◌, ◌<◌, ◌≤◌, ◌^◌, ◌↔◌, ◌||◌, nat_le, IsTrue, length, sum, replicate, slice_index};
ghost use Rattle.std.specs.List.{EachIndex};
ghost use Rattle.blsm_model.specs.Format.{callers, most_weight};
ghost use Rattle.blsm_model.specs.Geometry.{first_gear, second_gear};
ghost use Rattle.progress_est.specs.Progress.{IsBefore, in_progress_2, out_progress_1};
ghost use Rattle.gear_sched.specs.Gears.{GearState, FewDebts, at_rest, first_debt, second_debt, Owes, entered, forgiven, forgives_first, forgives_second, left_of, plan_for, took_first, took_second, passing, pass_ended, rotated, deep_ended};

use blsm_model::{CALLERS, Geometry};
use progress_est::{before, inprogress2, outprogress1};
use std::marker::Model;

const SEATS: usize = CALLERS as usize;

/// The merge that a seat's next quantum goes to.
#[derive(Clone, Copy, PartialEq, Eq, Debug)]
pub enum Plan {
    /// The pass.
    Snow,
    /// The deep merge.
    Deep,
    /// None: the seat owes nothing.
    Nothing,
}

/// The numbers of the merges that run, and what each caller's seat owes to them.
#[derive(Debug, Drop)]
pub struct Gears {
    geometry: Geometry,
    pass: bool,
    pass_c1: u64,
    pass_memory: u64,
    pass_admitted: u64,
    pass_taken: u64,
    deep: bool,
    deep_input: u64,
    deep_admitted: u64,
    deep_taken: u64,
    first_debts: [u64; SEATS],
    second_debts: [u64; SEATS],
}

impl Model for Gears {
    ghost use Rattle.gear_sched.specs.Gears.{GearState, FewDebts};

    ghost Value = { GearState };

    ghost view = { λ g. record { sizes = g.geometry; pass = g.pass; pass_c1 = g.pass_c1; pass_memory = g.pass_memory; pass_admitted = g.pass_admitted; pass_taken = g.pass_taken; deep = g.deep; deep_input = g.deep_input; deep_admitted = g.deep_admitted; deep_taken = g.deep_taken; first_debts = g.first_debts; second_debts = g.second_debts } };

    ghost invariant = { λ g. FewDebts (record { sizes = g.geometry; pass = g.pass; pass_c1 = g.pass_c1; pass_memory = g.pass_memory; pass_admitted = g.pass_admitted; pass_taken = g.pass_taken; deep = g.deep; deep_input = g.deep_input; deep_admitted = g.deep_admitted; deep_taken = g.deep_taken; first_debts = g.first_debts; second_debts = g.second_debts }) };
}

impl Gears {
    /// Gears at rest: no merge runs, and nobody owes.
    pub fn new(geo: &Geometry) -> Gears
        ensures { result ≡ at_rest geo.now }
    {
        Gears {
            geometry: *geo,
            pass: false,
            pass_c1: 0,
            pass_memory: 0,
            pass_admitted: 0,
            pass_taken: 0,
            deep: false,
            deep_input: 0,
            deep_admitted: 0,
            deep_taken: 0,
            first_debts: [0; SEATS],
            second_debts: [0; SEATS],
        }
    }

    /// A write of weight `w` was admitted for a seat that owes nothing.
    pub fn enter(&mut self, seat: u32, w: u64)
        requires seat { seat < callers }
        requires settled { first_debt self.old seat + second_debt self.old seat ≡ 0 }
        requires weight { w ≤ most_weight }
        requires fits { (self.old.pass_admitted + w < 2 ^ 64) × (self.old.deep_admitted + w < 2 ^ 64) }
        ensures { self.new ≡ entered self.old seat w }
    {
        if self.pass {
            self.pass_admitted += w;
            self.first_debts[seat as usize] += self.geometry.first_gear() * w;
        }
        if self.deep {
            self.deep_admitted += w;
            self.second_debts[seat as usize] += self.geometry.second_gear() * w;
        }
    }

    /// Which merge the seat's next quantum goes to, once what may be forgiven of its debts is forgiven: `done1` and `done2`
    /// say whether the pass, and whether the deep merge, is done or absent.
    pub fn plan(&mut self, seat: u32, done1: bool, done2: bool) -> Plan
        requires { seat < callers }
        ensures forgiven { self.new ≡ forgiven self.old seat done1 done2 }
        ensures plan { result ≡ plan_for (first_debt self.new seat) (second_debt self.new seat) }
    {
        let first = left_after(
            self.first_debts[seat as usize],
            total(&self.first_debts),
            self.pass_taken,
            self.geometry.first_gear(),
            self.pass_admitted,
            done1,
        );
        let second = left_after(
            self.second_debts[seat as usize],
            total(&self.second_debts),
            self.deep_taken,
            self.geometry.second_gear(),
            self.deep_admitted,
            done2,
        );
        self.first_debts[seat as usize] = first;
        self.second_debts[seat as usize] = second;
        if first != 0 {
            Plan::Snow
        } else if second != 0 {
            Plan::Deep
        } else {
            Plan::Nothing
        }
    }

    /// A quantum of the pass took `n` bytes, for this seat.
    pub fn took1(&mut self, seat: u32, n: u64)
        requires seat { seat < 24 }
        requires fits { self.old.pass_taken + n < 2 ^ 64 }
        ensures { self.new ≡ took_first self.old seat n }
    {
        self.pass_taken += n;
        if seat < CALLERS {
            self.first_debts[seat as usize] = self.first_debts[seat as usize].saturating_sub(n);
        }
    }

    /// A quantum of the deep merge took `n` bytes, for this seat.
    pub fn took2(&mut self, seat: u32, n: u64)
        requires seat { seat < 24 }
        requires fits { self.old.deep_taken + n < 2 ^ 64 }
        ensures { self.new ≡ took_second self.old seat n }
    {
        self.deep_taken += n;
        if seat < CALLERS {
            self.second_debts[seat as usize] = self.second_debts[seat as usize].saturating_sub(n);
        }
    }

    /// A pass begins, over so many bytes of C1 and of the memory table.
    pub fn new_pass(&mut self, c1: u64, memory: u64)
        ensures { self.new ≡ passing self.old c1 memory }
    {
        self.pass = true;
        self.pass_c1 = c1;
        self.pass_memory = memory;
        self.pass_admitted = 0;
        self.pass_taken = 0;
        self.first_debts = [0; SEATS];
    }

    /// The pass was swapped in: what was owed to it is forgotten.
    pub fn end_pass(&mut self)
        ensures { self.new ≡ pass_ended self.old }
    {
        self.pass = false;
        self.pass_c1 = 0;
        self.pass_memory = 0;
        self.pass_admitted = 0;
        self.pass_taken = 0;
        self.first_debts = [0; SEATS];
    }

    /// C1 was rotated: a deep merge begins, over so many bytes of C1' and C2.
    pub fn rotate(&mut self, input: u64)
        ensures { self.new ≡ rotated self.old input }
    {
        self.deep = true;
        self.deep_input = input;
        self.deep_admitted = 0;
        self.deep_taken = 0;
        self.second_debts = [0; SEATS];
    }

    /// The deep merge was swapped in: what was owed to it is forgotten.
    pub fn end_deep(&mut self)
        ensures { self.new ≡ deep_ended self.old }
    {
        self.deep = false;
        self.deep_input = 0;
        self.deep_admitted = 0;
        self.deep_taken = 0;
        self.second_debts = [0; SEATS];
    }

    /// Whether the seat owes anything.
    pub fn owes(&self, seat: u32) -> bool
        requires { seat < callers }
        ensures owes { IsTrue result ↔ Owes self.now seat }
        ensures few { FewDebts self.now }
    {
        self.first_debts[seat as usize] != 0 || self.second_debts[seat as usize] != 0
    }

    /// Whether the deep merge has come less far than C1 has on its way to its mark.
    pub fn deep_is_behind(&self) -> bool
        ensures { IsTrue result ↔ IsBefore (in_progress_2 self.now.deep_taken self.now.deep_input) (out_progress_1 self.now.sizes self.now.deep_admitted) }
    {
        before(
            inprogress2(self.deep_taken, self.deep_input),
            outprogress1(&self.geometry, self.deep_admitted),
        )
    }

    /// What the memory table counts in the charge while a pass runs, in bytes: its weight at the pass's begin, and what was
    /// admitted since.
    pub fn held_by_pass(&self) -> u128
        ensures { result ≡ self.now.pass_memory + self.now.pass_admitted }
    {
        u128::from(self.pass_memory) + u128::from(self.pass_admitted)
    }
}

// What all seats owe together.
fn total(debts: &[u64; SEATS]) -> u64
    requires { (seat : ℕ) → slice_index debts.now seat ≤ 36 * most_weight }
    ensures all { result ≡ sum debts.now }
{
    let mut all: u64 = 0;
    for debt in debts {
        all += *debt;
    }
    all
}

// What is left of a debt, where the seats owe `all` together, at a merge that has taken so much for what was admitted.
fn left_after(debt: u64, all: u64, taken: u64, gear: u64, admitted: u64, done: bool) -> u64
    requires within { debt ≤ all }
    ensures { result ≡ left_of (done || nat_le (gear * admitted) (taken + (all - debt))) debt }
{
    if done
        || u128::from(taken) + u128::from(all - debt) >= u128::from(gear) * u128::from(admitted)
    {
        0
    } else {
        debt
    }
}
