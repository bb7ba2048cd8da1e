//! The sizes of a store.
ghost use Rattle.std.specs.Prelude.{◌≡◌, ◌+◌, ◌*◌, ◌<◌, ◌≤◌, ◌^◌, ◌↔◌, IsTrue, IfOk, IfErr};
ghost use Rattle.std.specs.Int.{div_ceil};
ghost use Rattle.blsm_model.specs.Sizes.{IsGeometry, default_sizes};
ghost use Rattle.blsm_model.specs.Geometry.{IsFirstFault, high_mark, c1_mark, capacity, c1_way, first_gear, second_gear, work_bound, page_count, file_length, charge_limit};

use crate::{CALLERS, Op};
use std::marker::Model;
use thiserror::Error;

/// The first of the four numbers that is out of its range.
#[derive(Clone, Copy, PartialEq, Eq, Debug, Drop, Error)]
pub enum GeometryFault {
    #[error("the half spring is out of range")]
    Half,
    #[error("the ratio is out of range")]
    Ratio,
    #[error("the low mark is above the half spring")]
    Low,
    #[error("the quantum is out of range")]
    Quantum,
}

// A component's page that has a next one holds entries of at least this weight, in bytes.
const LEAST_FULL_PAGE: u64 = 3_577;

// C1, C1' and C2. The last page of each may be nearly empty.
const COMPONENTS: u64 = 3;

// The store's pages are so many times those of three components at capacity: one share for each caller's hold, one for
// the components, one for the two runs being written, and one to spare.
const PAGE_SHARES: u64 = CALLERS as u64 + 3;

// The bytes of a page, and of what lies before the lanes of the log.
const PAGE_LEN: u64 = 4_096;

const HEAD_LEN: u64 = 4_096;

// The lanes of the log, and how many halves of the spring each may hold.
const LANES: u64 = 3;

const LANE_HALVES: u64 = 4;

/// The four numbers that a store is made with, and what follows from them. Contracts see it as the record `Sizes`.
#[derive(Clone, Copy, PartialEq, Eq, Debug)]
pub struct Geometry {
    half: u64,
    ratio: u64,
    low: u64,
    quantum: u64,
}

impl Model for Geometry {
    ghost use Rattle.blsm_model.specs.Sizes.{Sizes, IsGeometry};

    ghost Value = { Sizes };

    ghost view = { λ g. record { half = g.half; ratio = g.ratio; low = g.low; quantum = g.quantum } };

    ghost invariant = { λ g. IsGeometry (record { half = g.half; ratio = g.ratio; low = g.low; quantum = g.quantum }) };

    ghost inverse = { λ s. record { half = s.half; ratio = s.ratio; low = s.low; quantum = s.quantum } };
}

impl Default for Geometry {
    ghost is_default = { λ geometry. geometry ≡ default_sizes };

    fn default() -> Geometry {
        Geometry {
            half: Geometry::DEFAULT_HALF,
            ratio: Geometry::DEFAULT_RATIO,
            low: Geometry::DEFAULT_LOW,
            quantum: Geometry::DEFAULT_QUANTUM,
        }
    }
}

impl Geometry {
    /// The least half spring, in bytes: twice the heaviest entry of each caller and of one more.
    pub const MIN_HALF: u64 = 2 * (CALLERS as u64 + 1) * Op::MAX_WEIGHT;

    /// The greatest half spring, in bytes.
    pub const MAX_HALF: u64 = 67_108_864;

    /// The least ratio.
    pub const MIN_RATIO: u64 = 2;

    /// The greatest ratio.
    pub const MAX_RATIO: u64 = 8;

    /// The least quantum, in bytes.
    pub const MIN_QUANTUM: u64 = 1_024;

    /// The greatest quantum, in bytes.
    pub const MAX_QUANTUM: u64 = 65_536;

    /// The half spring of the default geometry, in bytes.
    pub const DEFAULT_HALF: u64 = 32_768;

    /// The ratio of the default geometry.
    pub const DEFAULT_RATIO: u64 = 4;

    /// The low mark of the default geometry, in bytes.
    pub const DEFAULT_LOW: u64 = 16_384;

    /// The quantum of the default geometry, in bytes.
    pub const DEFAULT_QUANTUM: u64 = 4_096;

    /// The geometry of these numbers, or the first of them that is out of its range, in this order: the half spring
    /// (17,408 to 67,108,864 bytes), the ratio (2 to 8), the low mark (at most the half spring), the quantum (1,024 to
    /// 65,536 bytes).
    pub fn new(half: u64, ratio: u64, low: u64, quantum: u64) -> Result<Geometry, GeometryFault>
        ensures ok { IfOk result (λ g. g ≡ record { half = half; ratio = ratio; low = low; quantum = quantum }) }
        ensures fits { IfOk result IsGeometry }
        ensures err { IfErr result (IsFirstFault (record { half = half; ratio = ratio; low = low; quantum = quantum })) }
    {
        if half < Geometry::MIN_HALF || half > Geometry::MAX_HALF {
            return Err(GeometryFault::Half);
        }
        if ratio < Geometry::MIN_RATIO || ratio > Geometry::MAX_RATIO {
            return Err(GeometryFault::Ratio);
        }
        if low > half {
            return Err(GeometryFault::Low);
        }
        if quantum < Geometry::MIN_QUANTUM || quantum > Geometry::MAX_QUANTUM {
            return Err(GeometryFault::Quantum);
        }
        Ok(Geometry {
            half,
            ratio,
            low,
            quantum,
        })
    }

    /// The half spring, in bytes: what the memory table may weigh when a pass begins.
    pub fn half(&self) -> u64
        ensures value { result ≡ self.now.half }
        ensures fits { IsGeometry self.now }
    {
        self.half
    }

    /// The ratio of C1's mark to the memory table's high mark, and of the capacity to C1's mark.
    pub fn ratio(&self) -> u64
        ensures value { result ≡ self.now.ratio }
        ensures fits { IsGeometry self.now }
    {
        self.ratio
    }

    /// The low mark, in bytes: a pass begins at the write that would bring what the memory table took in past it.
    pub fn low(&self) -> u64
        ensures value { result ≡ self.now.low }
        ensures fits { IsGeometry self.now }
    {
        self.low
    }

    /// The quantum, in bytes: how much a merge takes at once at least, while its inputs last.
    pub fn quantum(&self) -> u64
        ensures value { result ≡ self.now.quantum }
        ensures fits { IsGeometry self.now }
    {
        self.quantum
    }

    /// The high mark, in bytes: what the memory table weighs at most.
    pub fn high_mark(&self) -> u64
        ensures mark { result ≡ high_mark self.now }
        ensures bound { result ≤ 134217728 }
    {
        2 * self.half
    }

    /// C1's mark, in bytes: the weight from which C1 is full.
    #[tactic(auto, using(crate::proofs::GeometryLemmas::bounds))]
    pub fn c1_mark(&self) -> u64
        ensures mark { result ≡ c1_mark self.now }
        ensures bound { result ≤ 1073741824 }
    {
        2 * self.ratio * self.half
    }

    /// The capacity, in bytes: what all components and the memory table weigh at most.
    #[tactic(auto, using(crate::proofs::GeometryLemmas::bounds))]
    pub fn capacity(&self) -> u64
        ensures capacity { result ≡ capacity self.now }
        ensures bound { result ≤ 8589934592 }
    {
        self.ratio * self.c1_mark()
    }

    /// C1's way, in bytes: how much is admitted from one rotation to the next at least.
    #[tactic(auto, using(crate::proofs::GeometryLemmas::bounds))]
    pub fn c1_way(&self) -> u64
        ensures { result ≡ c1_way self.now }
    {
        self.c1_mark() - self.half
    }

    /// The first gear: how many bytes of a pass each admitted byte owes.
    pub fn first_gear(&self) -> u64
        ensures gear { result ≡ first_gear self.now }
        ensures bound { result ≤ 36 }
    {
        4 * self.ratio + 4
    }

    /// The second gear: how many bytes of a deep merge each admitted byte owes.
    pub fn second_gear(&self) -> u64
        ensures gear { result ≡ second_gear self.now }
        ensures bound { result ≤ 10 }
    {
        self.ratio + 2
    }

    /// The work bound: how many quanta the caller of a write of this weight, in bytes, does at most.
    #[tactic(auto, using(crate::proofs::GeometryLemmas::bounds))]
    pub fn bound(&self, weight: u64) -> u64
        ensures { result ≡ work_bound self.now weight }
    {
        quanta_for(self.first_gear(), weight, self.quantum)
            + quanta_for(self.second_gear(), weight, self.quantum)
    }

    /// Whether a write of this weight is taken at this charge, both in bytes. A del may fill the
    /// capacity; any other write must leave half a spring of it free.
    pub fn admits(&self, is_del: bool, charge: u64, weight: u64) -> bool
        ensures { IsTrue result ↔ (charge + weight ≤ charge_limit self.now is_del) }
    {
        let capacity = self.capacity();
        let limit = if is_del {
            capacity
        } else {
            capacity.saturating_sub(self.half)
        };
        weight <= limit && charge <= limit - weight
    }

    /// How many pages a store has.
    #[tactic(auto, using(crate::proofs::GeometryLemmas::bounds))]
    pub fn pages(&self) -> u64
        ensures pages { result ≡ page_count self.now }
        ensures bound { result ≤ 45700000 }
    {
        PAGE_SHARES * (self.capacity().div_ceil(LEAST_FULL_PAGE) + COMPONENTS)
    }

    /// The length of a store's file, in bytes: the head, the lanes and the pages.
    pub fn length(&self) -> u64
        ensures { result ≡ file_length self.now }
    {
        HEAD_LEN + LANES * LANE_HALVES * self.half + PAGE_LEN * self.pages()
    }
}

// How many quanta a debt of `gear` times `weight` bytes takes.
#[tactic(auto, using(crate::proofs::GeometryLemmas::quanta))]
fn quanta_for(gear: u64, weight: u64, quantum: u64) -> u64
    requires gear { gear ≤ 36 }
    requires quantum { 1024 ≤ quantum }
    ensures quanta { result ≡ div_ceil (gear * weight) quantum }
    ensures bound { result < 2 ^ 63 }
{
    let debt = u128::from(gear) * u128::from(weight);
    debt.div_ceil(u128::from(quantum)) as u64
}
